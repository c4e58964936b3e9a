// The vertices under a matrix that ends with the row 0 0 0 1, which takes no division.
#![tactic(auto)]

ghost use Rattle.std.specs.Prelude.{◌≡◌, map, ◌*◌, ◌≤◌, length, take};
ghost use Rattle.ieee.specs.Number.{is_zero};
ghost use Rattle.math.specs.Vec.{v_finite, one};
ghost use Rattle.math_matrix.specs.Mat.{transform_point};
ghost use Rattle.mesh_spec.specs.Decides.{Decides};
ghost use Rattle.mesh_spec.specs.Slices.{points};
ghost use Rattle.slice.specs.Every.{every};
ghost use Rattle.mesh_move_affine.specs.Affine.{Affine, affine_point, Movable, Computes, MovesTo};

mod bounds;

pub use bounds::is_bounded;
use math::{BoundingBox, Vec3};
use math_matrix::Mat4;
use mesh_triples::{put_vertex, vertex};

// Whether x is a zero, of either sign. A function of its own: a float that is passed is known to be one of 64 bits, and an element of an array is not.
fn is_zero(x: f64) -> bool
    ensures { result ≡ is_zero x }
{
    x == 0.0
}

// Whether x is 1.
fn is_one(x: f64) -> bool
    ensures { Decides result (x ≡ one) }
{
    x == 1.0
}

// Whether the last row is 0 0 0 1.
pub fn is_affine(a: Mat4) -> bool
    ensures { Decides result (Affine a) }
{
    let m = a.m;
    is_zero(m[12]) & is_zero(m[13]) & is_zero(m[14]) & is_one(m[15])
}

// The point p under the first three rows.
fn affine_point(a: Mat4, p: Vec3) -> Vec3
    ensures { result ≡ affine_point a p }
{
    let m = a.m;
    Vec3 {
        x: m[0] * p.x + m[1] * p.y + m[2] * p.z + m[3],
        y: m[4] * p.x + m[5] * p.y + m[6] * p.z + m[7],
        z: m[8] * p.x + m[9] * p.y + m[10] * p.z + m[11],
    }
}

// Whether the values of a function at the first n vertices are finite. It has no early end, so that several are computed at once.
pub fn all_finite_by<F: Fn(Vec3) -> Vec3>(vertices: &[f64], n: usize, value: F) -> bool
    requires within { 3 * n ≤ length vertices.now }
    requires callable { F.IsAlwaysCallable value }
    ensures { (f : Vec3 → Vec3) → Computes (F.post value) f vertices.now n
        → result ≡ every v_finite (map f (points (take (3 * n) vertices.now))) }
{
    let mut ok = true;
    for i in 0..n {
        ok &= value(vertex(vertices, i)).is_finite();
    }
    ok
}

// Replaces each of the first n vertices by the value of a function there, and answers their box after it.
pub fn move_by<F: Fn(Vec3) -> Vec3>(vertices: &mut [f64], n: usize, value: F) -> BoundingBox
    requires within { 3 * n ≤ length vertices.old }
    requires callable { F.IsAlwaysCallable value }
    ensures { (a : Mat4) → Computes (F.post value) (transform_point a) vertices.old n
        → MovesTo a n vertices.old result vertices.new }
{
    let mut b = math_box::empty_box();
    for i in 0..n {
        let v = vertex(vertices, i);
        let p = value(v);
        put_vertex(vertices, i, p);
        b = math_box::include(b, p);
    }
    mesh_box::plus_zero(b)
}

// Whether the first n vertices are finite after the matrix.
pub fn stay_finite(vertices: &[f64], n: usize, a: Mat4) -> bool
    requires { Movable vertices.now n a }
    ensures { result ≡ every v_finite (map (transform_point a) (points (take (3 * n) vertices.now))) }
{
    all_finite_by(vertices, n, |p| affine_point(a, p))
}

// Puts the first n vertices under the matrix, and answers their box after it.
pub fn move_all(vertices: &mut [f64], n: usize, a: Mat4) -> BoundingBox
    requires { Movable vertices.old n a }
    ensures { MovesTo a n vertices.old result vertices.new }
{
    move_by(vertices, n, |p| affine_point(a, p))
}
