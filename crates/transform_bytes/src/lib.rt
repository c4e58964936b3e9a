// Points and operations in bytes.
#![tactic(auto)]

ghost use Rattle.std.specs.Prelude.{◌≡◌, ◌+◌, ◌*◌, ◌≤◌, length};
ghost use Rattle.transform_bytes.specs.Layout.{vec_at, row_at, matrix_at, op_floats, op_of_kind};

use math::Vec3;
use math_matrix::Row;
use transform::TransformOp;

// Three floats from place at on.
pub fn vec_at(b: &[u8], at: usize) -> Vec3
    requires { at + 24 ≤ length b.now }
    ensures { result ≡ vec_at b.now at }
{
    Vec3 {
        x: slice_bytes::float_at(b, at),
        y: slice_bytes::float_at(b, at + 8),
        z: slice_bytes::float_at(b, at + 16),
    }
}

// Four floats from place at on.
fn row_at(b: &[u8], at: usize) -> Row
    requires { at + 32 ≤ length b.now }
    ensures { result ≡ row_at b.now at }
{
    Row {
        x: slice_bytes::float_at(b, at),
        y: slice_bytes::float_at(b, at + 8),
        z: slice_bytes::float_at(b, at + 16),
        w: slice_bytes::float_at(b, at + 24),
    }
}

// A matrix of sixteen floats from place at on, row by row.
fn matrix_at(b: &[u8], at: usize) -> TransformOp
    requires { at + 128 ≤ length b.now }
    ensures { result ≡ matrix_at b.now at }
{
    TransformOp::Matrix(
        row_at(b, at),
        row_at(b, at + 32),
        row_at(b, at + 64),
        row_at(b, at + 96),
    )
}

// The floats of an operation, by its kind.
// A byte of a file, read into TransformOp below: an enum of kinds would be a second list of the eight, and a match more.
pub fn op_floats(kind: u8) -> u8
    ensures { result ≡ op_floats kind }
{
    match kind {
        1 => 3,
        2 => 4,
        3 => 1,
        4 => 1,
        5 => 1,
        6 => 1,
        7 => 3,
        _ => 16,
    }
}

// The operation of a kind, 1 to 8 in the order of `TransformOp`, whose floats begin at place n. Any other kind counts as 8.
// Not TryFrom: it reads floats at a place of the bytes, which its clause asks to be long enough, and any other kind counts as 8, so nothing fails.
pub fn op_of_kind(kind: u8, b: &[u8], n: usize) -> TransformOp
    requires { n + 8 * op_floats kind ≤ length b.now }
    ensures { result ≡ op_of_kind kind b.now n }
{
    match kind {
        1 => TransformOp::Translate(vec_at(b, n)),
        2 => TransformOp::RotateOrigin(vec_at(b, n), slice_bytes::float_at(b, n + 24)),
        3 => TransformOp::RotateX(slice_bytes::float_at(b, n)),
        4 => TransformOp::RotateY(slice_bytes::float_at(b, n)),
        5 => TransformOp::RotateZ(slice_bytes::float_at(b, n)),
        6 => TransformOp::Scale(slice_bytes::float_at(b, n)),
        7 => TransformOp::Scale3(vec_at(b, n)),
        _ => matrix_at(b, n),
    }
}
