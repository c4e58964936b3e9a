// The calls: each runs the library on the slices that it is lent, and writes the result.
ghost use Rattle.std.specs.Prelude.{◌≡◌, length};
ghost use Rattle.mesh_check.specs.State.{state};
ghost use Rattle.mesh_edit_law.specs.Edits.{append_of, flip_of, transform_of};
ghost use Rattle.outline_clip.specs.Clip.{clip_outline};
ghost use Rattle.replay_calls.specs.Sessions.{claimed};

use crate::loading::{load_floats, load_words};
use crate::output;
use crate::written::edited;
use mesh::TriMesh;
use replay_calls::{Answer, agreed, claimed_mesh};
use replay_format::Head;
use replay_slices::fill_words;
use slice::wide;
use transform::Operations;

// Clips an outline. It answers whether the result was written.
pub(crate) fn clip(list: &[f64], triangles: &mut [u32]) -> bool
    ensures { triangles.new ≡ (clip_outline list.now (length triangles.old)).slice }
{
    fill_words(triangles);
    let clipped = outline_clip::clip_outline(list, triangles);
    let cut = outline_clip::cut_or_zeros(clipped);
    if !output::three_words(
        refusal::number(clipped),
        output::count(cut.triangles),
        output::count(cut.removed),
    ) {
        return false;
    }
    output::words(triangles)
}

// Appends the other mesh to the first.
pub(crate) fn append(
    m: TriMesh,
    vertices: &mut [f64],
    triangles: &mut [u32],
    other: TriMesh,
    other_vertices: &[f64],
    other_triangles: &[u32],
) -> Answer
    ensures { state result.mesh vertices.new triangles.new
        ≡ (append_of (state m vertices.old triangles.old)
        (state other other_vertices.now other_triangles.now)).state }
{
    let made = mesh::append(
        m,
        vertices,
        triangles,
        other,
        other_vertices,
        other_triangles,
    );
    edited(made, m, vertices, triangles)
}

pub(crate) fn flip(m: TriMesh, vertices: &[f64], triangles: &mut [u32]) -> Answer
    ensures { state result.mesh vertices.now triangles.new
        ≡ (flip_of (state m vertices.now triangles.old)).state }
{
    let made = mesh::flip(m, vertices, triangles);
    edited(made, m, vertices, triangles)
}

pub(crate) fn transform(
    m: TriMesh,
    vertices: &mut [f64],
    triangles: &mut [u32],
    ops: &Operations,
) -> Answer
    ensures { state result.mesh vertices.new triangles.new
        ≡ (transform_of ops.now.ops ops.now.count ops.now.degrees (state m vertices.old triangles.old)).state }
{
    let made = mesh::transform(m, vertices, triangles, ops);
    edited(made, m, vertices, triangles)
}

pub(crate) fn measure(m: TriMesh, vertices: &[f64], triangles: &[u32]) -> bool {
    let volume = mesh::signed_volume(m, vertices, triangles);
    let enclosed = mesh::enclosed_volume(m, vertices, triangles);
    let area = mesh::area(m, vertices, triangles);
    let boxed = mesh::bounding_box(m, vertices, triangles);
    let why = agreed(
        refusal::number(volume),
        refusal::number(enclosed),
        refusal::number(area),
        refusal::number(boxed),
    );
    output::measured(
        why,
        mesh::bits_or_zero(volume),
        mesh::bits_or_zero(enclosed),
        mesh::bits_or_zero(area),
        mesh::box_or_zeros(boxed),
    )
}

// Loads both slices.
fn load_both(h: Head, vertices: &mut [f64], triangles: &mut [u32]) -> bool {
    if !load_floats(vertices, wide(h.list_floats)) {
        return false;
    }
    load_words(triangles, wide(h.loaded_numbers))
}

// Loads a mesh from the input, with the counts and the box claimed.
pub(crate) fn load(h: Head, vertices: &mut [f64], triangles: &mut [u32]) -> Answer
    ensures { result.mesh ≡ claimed h }
{
    let m = claimed_mesh(h);
    if !load_both(h, vertices, triangles) {
        return Answer {
            mesh: m,
            written: false,
        };
    }
    edited(Ok(m), m, vertices, triangles)
}
