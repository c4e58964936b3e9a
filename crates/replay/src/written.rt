// Writing of meshes.
ghost use Rattle.std.specs.Prelude.{◌≡◌};
ghost use Rattle.mesh_check.specs.State.{empty_record, record_after};

use crate::output;
use mesh::TriMesh;
use refusal::Refusal;
use replay_calls::Answer;

// The answer of an edit: the refusal's number, and of the record that the edit leaves counts and bounds, then both slices.
fn mesh_written(why: u32, m: TriMesh, vertices: &[f64], triangles: &[u32]) -> bool {
    output::three_words(why, output::count(m.vertices), output::count(m.triangles))
        && output::bounds(m.bounds)
        && output::floats(vertices)
        && output::words(triangles)
}

// Writes what an edit of the mesh m answered: of a refused one the record is m.
pub(crate) fn edited(
    made: Result<TriMesh, Refusal>,
    m: TriMesh,
    vertices: &[f64],
    triangles: &[u32],
) -> Answer
    ensures { result.mesh ≡ record_after m made }
{
    let mesh = made.unwrap_or(m);
    Answer {
        mesh,
        written: mesh_written(refusal::number(made), mesh, vertices, triangles),
    }
}

// Writes a drawn mesh, and the work slice: of a refused one the record is the empty one.
pub(crate) fn drawn(
    made: Result<TriMesh, Refusal>,
    vertices: &[f64],
    triangles: &[u32],
    work: &[u32],
) -> Answer
    ensures { result.mesh ≡ record_after empty_record made }
{
    let answer = edited(made, mesh_check::empty_record(), vertices, triangles);
    Answer {
        mesh: answer.mesh,
        written: answer.written && output::words(work),
    }
}
