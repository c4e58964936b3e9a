// What `flip` and the measures check, in docs/SCOPE.md's order: refusal 8, then 1, then 8 for the box.
ghost use Rattle.std.specs.Prelude.{◌≡◌};
ghost use Rattle.refusal.specs.Answer.{answer_with};
ghost use Rattle.mesh_spec.specs.Measures.{bounding_box};
ghost use Rattle.mesh_check.specs.State.{state, mesh_of, check_of};

use crate::{TriMesh, checks};
use math::BoundingBox;
use refusal::Refusal;

// The box of the vertices, unless 8, then 1, then 8 for the box is due. 1 and the box take one pass over them.
pub fn check(mesh: TriMesh, vertices: &[f64], triangles: &[u32]) -> Result<BoundingBox, Refusal>
    ensures { result
        ≡ answer_with (check_of (state mesh vertices.now triangles.now))
        (bounding_box (mesh_of (state mesh vertices.now triangles.now))) }
{
    if checks::bad_mesh(mesh, vertices, triangles) {
        return Err(Refusal::BadMesh);
    }
    let found = mesh_box::finite_box(vertices, mesh.vertices);
    let right = mesh_box::same_box(mesh.bounds, found.bounds);
    if !found.finite {
        return Err(Refusal::NotFinite);
    }
    if !right {
        return Err(Refusal::BadMesh);
    }
    Ok(found.bounds)
}
