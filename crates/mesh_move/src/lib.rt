// Vertices under a matrix, and a mesh under it.
#![tactic(auto)]

ghost use Rattle.std.specs.Prelude.{◌*◌, ◌≤◌, length};
ghost use Rattle.mesh_move_affine.specs.Affine.{FiniteVertices, MovesTo};

mod under_matrix;

use math::BoundingBox;
use math_matrix::Mat4;
pub use under_matrix::move_mesh;

// Puts the first n vertices under the matrix, and answers their box after it. A point is divided by its fourth coordinate where that is neither 0 nor 1.
fn move_divided(vertices: &mut [f64], n: usize, a: Mat4) -> BoundingBox
    requires { 3 * n ≤ length vertices.old }
    ensures { MovesTo a n vertices.old result vertices.new }
{
    mesh_move_affine::move_by(vertices, n, |p| math_matrix_ops::transform_point(a, p))
}

// Puts the first n vertices, which are finite, under the matrix, and answers their box after it.
fn move_finite(vertices: &mut [f64], n: usize, a: Mat4) -> BoundingBox
    requires { FiniteVertices vertices.old n }
    ensures { MovesTo a n vertices.old result vertices.new }
{
    if mesh_move_affine::is_affine(a) {
        return mesh_move_affine::move_all(vertices, n, a);
    }
    move_divided(vertices, n, a)
}

// Puts the first n vertices under the matrix, and answers their box after it.
fn move_all(vertices: &mut [f64], n: usize, a: Mat4) -> BoundingBox
    requires { 3 * n ≤ length vertices.old }
    ensures { MovesTo a n vertices.old result vertices.new }
{
    if slice::all_finite(vertices, 3 * n) {
        return move_finite(vertices, n, a);
    }
    move_divided(vertices, n, a)
}
