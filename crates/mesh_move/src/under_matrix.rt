// A mesh under a matrix: `TriMesh::transform` of src/tessellate.rs.
ghost use Rattle.std.specs.Prelude.{◌≡◌};
ghost use Rattle.mesh_spec.specs.Edits.{transform};
ghost use Rattle.mesh_move_affine.specs.Affine.{MovesTo};
ghost use Rattle.mesh_check.specs.State.{state, mesh_of, stored};
ghost use Rattle.mesh_move.specs.Moves.{KnownVertices, MovableMesh};

use crate::{move_all, move_finite};
use math::BoundingBox;
use math_matrix::Mat4;
use mesh_check::TriMesh;

// Puts the first n vertices under the matrix, and answers their box after it. Where `finite` is true they are known to be finite, and are not tested.
fn move_known(vertices: &mut [f64], n: usize, a: Mat4, finite: bool) -> BoundingBox
    requires { KnownVertices vertices.old n finite }
    ensures { MovesTo a n vertices.old result vertices.new }
{
    if finite {
        return move_finite(vertices, n, a);
    }
    move_all(vertices, n, a)
}

// Puts the vertices under the matrix, and turns every triangle where its determinant is below 0. It answers the record after that.
pub fn move_mesh(
    mesh: TriMesh,
    vertices: &mut [f64],
    triangles: &mut [u32],
    a: Mat4,
    finite: bool,
) -> TriMesh
    requires { MovableMesh (state mesh vertices.old triangles.old) finite }
    ensures { state result vertices.new triangles.new
        ≡ stored (transform a (mesh_of (state mesh vertices.old triangles.old)))
        (state mesh vertices.old triangles.old) }
{
    let n = mesh.vertices;
    let k = mesh.triangles;
    let bounds = move_known(vertices, n, a, finite);
    if math_matrix_ops::determinant(a) < 0.0 {
        mesh_write::turn_all(triangles, k);
        return mesh_check::record_of(n, k, bounds);
    }
    mesh_check::record_of(n, k, bounds)
}
