// What matrices do: the product of two, a point under one, and whether one mirrors. `Mul for Mat4` and `Mat4::transform_point` of src/math.rs, and
// `det` of `TriMesh::transform` of src/tessellate.rs.
#![tactic(auto)]

ghost use Rattle.std.specs.Prelude.{◌≡◌};
ghost use Rattle.math_matrix.specs.Mat as Mat;

use math::Vec3;
use math_matrix::{Mat4, Row};

// An entry of a product: the row r times a column of the second matrix.
fn product_entry(r: Row, p: f64, q: f64, s: f64, t: f64) -> f64
    ensures { result ≡ Mat.product_entry r p q s t }
{
    0.0 + r.x * p + r.y * q + r.z * s + r.w * t
}

// The row of a product that the row r of the first matrix gives with the rows of the second.
fn times_rows(r: Row, p: Row, q: Row, s: Row, t: Row) -> Row
    ensures { result ≡ Mat.times_rows r p q s t }
{
    Row {
        x: product_entry(r, p.x, q.x, s.x, t.x),
        y: product_entry(r, p.y, q.y, s.y, t.y),
        z: product_entry(r, p.z, q.z, s.z, t.z),
        w: product_entry(r, p.w, q.w, s.w, t.w),
    }
}

fn product_row(r: Row, o: Mat4) -> Row
    ensures { result ≡ Mat.product_row r o }
{
    times_rows(
        r,
        math_matrix::row_of(o, 0),
        math_matrix::row_of(o, 1),
        math_matrix::row_of(o, 2),
        math_matrix::row_of(o, 3),
    )
}

// The matrix that applies o first and then a.
pub fn product(a: Mat4, o: Mat4) -> Mat4
    ensures { result ≡ Mat.product a o }
{
    let p = product_row(math_matrix::row_of(a, 0), o);
    let q = product_row(math_matrix::row_of(a, 1), o);
    let r = product_row(math_matrix::row_of(a, 2), o);
    let s = product_row(math_matrix::row_of(a, 3), o);
    math_matrix::from_rows(p, q, r, s)
}

// The number that the row r gives for the point p, whose fourth coordinate is 1.
fn along(r: Row, p: Vec3) -> f64
    ensures { result ≡ Mat.along r p }
{
    r.x * p.x + r.y * p.y + r.z * p.z + r.w
}

// x, y and z, divided by w where w is neither 0 nor 1.
fn over_w(x: f64, y: f64, z: f64, w: f64) -> Vec3
    ensures { result ≡ Mat.over_w x y z w }
{
    if (w != 1.0) & (w != 0.0) {
        Vec3 {
            x: x / w,
            y: y / w,
            z: z / w,
        }
    } else {
        Vec3 { x, y, z }
    }
}

// The point p under the matrix: divided by w where w is neither 0 nor 1.
pub fn transform_point(a: Mat4, p: Vec3) -> Vec3
    ensures { result ≡ Mat.transform_point a p }
{
    let x = along(math_matrix::row_of(a, 0), p);
    let y = along(math_matrix::row_of(a, 1), p);
    let z = along(math_matrix::row_of(a, 2), p);
    let w = along(math_matrix::row_of(a, 3), p);
    over_w(x, y, z, w)
}

fn det_rows(p: Row, q: Row, r: Row) -> f64
    ensures { result ≡ Mat.det_rows p q r }
{
    p.x * (q.y * r.z - q.z * r.y) - p.y * (q.x * r.z - q.z * r.x) + p.z * (q.x * r.y - q.y * r.x)
}

// The determinant of the first three rows and columns: below 0 where the matrix mirrors.
pub fn determinant(a: Mat4) -> f64
    ensures { result ≡ Mat.determinant a }
{
    det_rows(
        math_matrix::row_of(a, 0),
        math_matrix::row_of(a, 1),
        math_matrix::row_of(a, 2),
    )
}
