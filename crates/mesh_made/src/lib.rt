// Where every call that makes a mesh ends: what it answers, and what stays in the lent slices.
#![tactic(auto)]

ghost use Rattle.std.specs.Prelude.{◌≡◌, ◌*◌, ◌≤◌, length};
ghost use Rattle.mesh_made.specs.Made.{record_made, short_work};
ghost use Rattle.mesh_made.specs.Steps.{judged, Keeps, Ends};

use mesh_check::TriMesh;
use refusal::Refusal;
use weld::Welder;

// Refusal 6: fewer than two numbers of work for each whole vertex place.
pub fn short_work(vertices: usize, work: usize) -> bool
    ensures { result ≡ short_work vertices work }
{
    work < 2 * (vertices / 3)
}

// Refusals 5 and 7, as the welder tells them, or its mesh, whose vertices lie at the start of the slice.
pub fn judge(w: Welder, vertices: &[f64]) -> Result<TriMesh, Refusal>
    requires { 3 * w.count ≤ length vertices.now }
    ensures { result ≡ judged w vertices.now }
{
    if !w.finite {
        return Err(Refusal::PointNotFinite);
    }
    if !w.room {
        return Err(Refusal::NoRoom);
    }
    let bounds = mesh_box::box_of(vertices, w.count);
    Ok(mesh_check::record_of(w.count, w.faces, bounds))
}

// The counted places stay. Every later element is zero, those of a last place that is not whole too, and so is the work slice.
fn keep(mesh: TriMesh, vertices: &mut [f64], triangles: &mut [u32], work: &mut [u32])
    requires { (3 * mesh.vertices ≤ length vertices.old) × (3 * mesh.triangles ≤ length triangles.old) }
    ensures { Keeps mesh vertices.old triangles.old work.old
        vertices.new triangles.new work.new }
{
    slice::clear_from(vertices, 3 * mesh.vertices, 0.0);
    slice::clear_from(triangles, 3 * mesh.triangles, 0);
    slice::clear_from(work, 0, 0);
}

// The record of what a call made, the empty one where it was refused.
pub fn record_made(made: Result<TriMesh, Refusal>) -> TriMesh
    ensures { result ≡ record_made made }
{
    made.unwrap_or(mesh_check::empty_record())
}

// The end of the call: a refused one leaves zeros, an accepted one the mesh.
pub fn end(
    made: Result<TriMesh, Refusal>,
    vertices: &mut [f64],
    triangles: &mut [u32],
    work: &mut [u32],
) -> Result<TriMesh, Refusal>
    requires { (3 * (record_made made).vertices ≤ length vertices.old) × (3 * (record_made made).triangles ≤ length triangles.old) }
    ensures { Ends made vertices.old triangles.old work.old
        result vertices.new triangles.new work.new }
{
    let mesh = record_made(made);
    keep(mesh, vertices, triangles, work);
    made
}
