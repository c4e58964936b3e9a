// Whether vertices are finite after a matrix. Writes nothing.
#![tactic(auto)]

ghost use Rattle.std.specs.Prelude.{◌≡◌, map, ◌*◌, ◌≤◌, length, take};
ghost use Rattle.math.specs.Vec.{v_finite};
ghost use Rattle.math_matrix.specs.Mat.{transform_point};
ghost use Rattle.mesh_spec.specs.Slices.{points};
ghost use Rattle.slice.specs.Every.{every};
ghost use Rattle.mesh_move_affine.specs.Affine.{Tested};

use math_matrix::Mat4;

// Whether the first n vertices are finite after the matrix. A point is divided by its fourth coordinate where that is neither 0 nor 1.
fn stay_finite_divided(vertices: &[f64], n: usize, a: Mat4) -> bool
    requires { 3 * n ≤ length vertices.now }
    ensures { result ≡ every v_finite (map (transform_point a) (points (take (3 * n) vertices.now))) }
{
    mesh_move_affine::all_finite_by(vertices, n, |p| math_matrix_ops::transform_point(a, p))
}

// Whether the first n vertices, which are finite, are so after the matrix. None is computed where `small` says that they
// lie within ±2^400 and the matrix is bounded too.
pub fn tested_stay_finite(vertices: &[f64], n: usize, a: Mat4, small: bool) -> bool
    requires { Tested vertices.now n small }
    ensures { result ≡ every v_finite (map (transform_point a) (points (take (3 * n) vertices.now))) }
{
    if small & mesh_move_affine::is_bounded(a) {
        return true;
    }
    if mesh_move_affine::is_affine(a) {
        return mesh_move_affine::stay_finite(vertices, n, a);
    }
    stay_finite_divided(vertices, n, a)
}

// Whether the first n vertices are finite after the matrix.
pub fn stay_finite(vertices: &[f64], n: usize, a: Mat4) -> bool
    requires { 3 * n ≤ length vertices.now }
    ensures { result ≡ every v_finite (map (transform_point a) (points (take (3 * n) vertices.now))) }
{
    if slice_bounded::all_bounded(vertices, 3 * n) {
        return tested_stay_finite(vertices, n, a, true);
    }
    if slice::all_finite(vertices, 3 * n) {
        return tested_stay_finite(vertices, n, a, false);
    }
    stay_finite_divided(vertices, n, a)
}
