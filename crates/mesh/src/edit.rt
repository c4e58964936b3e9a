// Appending a mesh, reversing one, and the record after an edit.
ghost use Rattle.std.specs.Prelude.{◌≡◌};
ghost use Rattle.mesh_check.specs.State.{record_after, state};
ghost use Rattle.mesh_edit_law.specs.Outcome.{GivesEdit};
ghost use Rattle.mesh_edit_law.specs.Edits.{append_of, flip_of};

use mesh_check::TriMesh;
use refusal::Refusal;

// Appends the other mesh, which lies in other slices: its vertices follow, and its numbers go up by the vertex count.
pub fn append(
    mesh: TriMesh,
    vertices: &mut [f64],
    triangles: &mut [u32],
    other: TriMesh,
    other_vertices: &[f64],
    other_triangles: &[u32],
) -> Result<TriMesh, Refusal>
    ensures { GivesEdit
        (append_of (state mesh vertices.old triangles.old) (state other other_vertices.now other_triangles.now))
        mesh result vertices.new triangles.new }
{
    let n = mesh.vertices;
    let k = mesh.triangles;
    let more_n = other.vertices;
    let more_k = other.triangles;
    let union = mesh_check_append::check_append(
        mesh,
        vertices,
        triangles,
        other,
        other_vertices,
        other_triangles,
    )?;
    mesh_write::copy(vertices, 3 * n, other_vertices, 3 * more_n);
    mesh_write::copy_up(triangles, 3 * k, other_triangles, 3 * more_k, n as u32);
    Ok(mesh_check::record_of(n + more_n, k + more_k, union))
}

// Reverses every triangle.
pub fn flip(mesh: TriMesh, vertices: &[f64], triangles: &mut [u32]) -> Result<TriMesh, Refusal>
    ensures { GivesEdit (flip_of (state mesh vertices.now triangles.old)) mesh result vertices.now triangles.new }
{
    let bounds = mesh_check::check(mesh, vertices, triangles)?;
    mesh_write::turn_all(triangles, mesh.triangles);
    Ok(TriMesh { bounds, ..mesh })
}

// The record after an edit: the one that it answers, or where it is refused the one before.
pub fn record_after(before: TriMesh, made: Result<TriMesh, Refusal>) -> TriMesh
    ensures { result ≡ record_after before made }
{
    made.unwrap_or(before)
}
