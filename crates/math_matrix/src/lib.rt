// Matrices of four rows and columns: rows, the identity, translation and scaling of `impl Mat4` of src/math.rs.
#![tactic(auto)]

ghost use Rattle.std.specs.Prelude.{◌≡◌, ◌<◌};
ghost use Rattle.math_matrix.specs.Mat as Mat;

use math::Vec3;

// A row of a matrix: what it takes of x, y, z and of w, which is 1 for a point.
#[derive(Clone, Copy, Debug, PartialEq)]
pub struct Row {
    pub x: f64,
    pub y: f64,
    pub z: f64,
    pub w: f64,
}

// Four rows of four numbers, row after row. The translation is in the last column.
#[derive(Clone, Copy, Debug, PartialEq)]
pub struct Mat4 {
    pub m: [f64; 16],
}

pub fn new_row(x: f64, y: f64, z: f64, w: f64) -> Row
    ensures { result ≡ Mat.new_row x y z w }
{
    Row { x, y, z, w }
}

// The matrix of four rows.
pub fn from_rows(p: Row, q: Row, r: Row, s: Row) -> Mat4
    ensures { result ≡ Mat.from_rows p q r s }
{
    Mat4 {
        m: [
            p.x, p.y, p.z, p.w, q.x, q.y, q.z, q.w, r.x, r.y, r.z, r.w, s.x, s.y, s.z, s.w,
        ],
    }
}

// Row i of a matrix.
pub fn row_of(a: Mat4, i: usize) -> Row
    requires { i < 4 }
    ensures { result ≡ Mat.row_of a i }
{
    let m = a.m;
    let k = i * 4;
    Row {
        x: m[k],
        y: m[k + 1],
        z: m[k + 2],
        w: m[k + 3],
    }
}

pub fn identity() -> Mat4
    ensures { result ≡ Mat.identity }
{
    from_rows(
        new_row(1.0, 0.0, 0.0, 0.0),
        new_row(0.0, 1.0, 0.0, 0.0),
        new_row(0.0, 0.0, 1.0, 0.0),
        new_row(0.0, 0.0, 0.0, 1.0),
    )
}

pub fn translation(t: Vec3) -> Mat4
    ensures { result ≡ Mat.translation t }
{
    from_rows(
        new_row(1.0, 0.0, 0.0, t.x),
        new_row(0.0, 1.0, 0.0, t.y),
        new_row(0.0, 0.0, 1.0, t.z),
        new_row(0.0, 0.0, 0.0, 1.0),
    )
}

pub fn scaling(s: Vec3) -> Mat4
    ensures { result ≡ Mat.scaling s }
{
    from_rows(
        new_row(s.x, 0.0, 0.0, 0.0),
        new_row(0.0, s.y, 0.0, 0.0),
        new_row(0.0, 0.0, s.z, 0.0),
        new_row(0.0, 0.0, 0.0, 1.0),
    )
}
