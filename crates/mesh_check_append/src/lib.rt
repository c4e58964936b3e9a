// Which refusal `append` answers, in docs/SCOPE.md's order of checks: 8 on either mesh, 1 on either, 8 for the box of either, 7. Nothing is written here.
#![tactic(auto)]

ghost use Rattle.std.specs.Prelude.{◌≡◌};
ghost use Rattle.mesh_spec.specs.Mesh.{append};
ghost use Rattle.mesh_spec.specs.Measures.{bounding_box};
ghost use Rattle.refusal.specs.Answer.{answer_with};
ghost use Rattle.mesh_check.specs.State.{state, mesh_of};
ghost use Rattle.mesh_check_append.specs.Append.{append_refusal};

use math::BoundingBox;
use mesh_check::TriMesh;
use refusal::Refusal;

// The box of both meshes, which is the union of their boxes, unless 8, 1, 8 for the box or 7 is due.
pub fn check_append(
    mesh: TriMesh,
    vertices: &[f64],
    triangles: &[u32],
    other: TriMesh,
    other_vertices: &[f64],
    other_triangles: &[u32],
) -> Result<BoundingBox, Refusal>
    ensures { result
        ≡ answer_with
        (append_refusal (state mesh vertices.now triangles.now)
        (state other other_vertices.now other_triangles.now))
        (bounding_box (append (mesh_of (state mesh vertices.now triangles.now))
        (mesh_of (state other other_vertices.now other_triangles.now)))) }
{
    if mesh_check::bad_mesh(mesh, vertices, triangles)
        | mesh_check::bad_mesh(other, other_vertices, other_triangles)
    {
        return Err(Refusal::BadMesh);
    }
    let found = mesh_box::finite_box(vertices, mesh.vertices);
    let more = mesh_box::finite_box(other_vertices, other.vertices);
    let finite = found.finite & more.finite;
    let right = mesh_box::same_box(mesh.bounds, found.bounds)
        & mesh_box::same_box(other.bounds, more.bounds);
    if !finite {
        return Err(Refusal::NotFinite);
    }
    if !right {
        return Err(Refusal::BadMesh);
    }
    if (slice::counted_places(vertices.len()) < mesh.vertices + other.vertices)
        | (slice::counted_places(triangles.len()) < mesh.triangles + other.triangles)
    {
        return Err(Refusal::NoRoom);
    }
    Ok(math_box::union(found.bounds, more.bounds))
}
