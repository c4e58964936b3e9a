// Operations that move, turn and scale a mesh, and the matrix that a list of them makes: src/transform.rs.
#![tactic(auto)]

ghost use Rattle.std.specs.Prelude.{◌≡◌, take};
ghost use Rattle.transform.specs.Angle as Angle;
ghost use Rattle.transform.specs.Ops as Ops;

use math::Vec3;
use math_matrix::{Mat4, Row};
use trig::{Degrees, Radians};

// The angle of a rotation is in degrees or in radians, as the mark that goes with the operations says.
#[derive(Clone, Copy, Debug, PartialEq)]
pub enum TransformOp {
    Translate(Vec3),
    RotateOrigin(Vec3, f64),
    RotateX(f64),
    RotateY(f64),
    RotateZ(f64),
    Scale(f64),
    Scale3(Vec3),
    Matrix(Row, Row, Row, Row),
}

// Operations, of which the first `count` apply, in their order: all 16 where it is above 16. Angles are in degrees where `degrees`
// says so, and in radians otherwise.
// An array with a count, as there is no heap; the count may be above 16, which the calls refuse.
#[derive(Clone, Copy, Debug, PartialEq)]
pub struct Operations {
    pub ops: [TransformOp; 16],
    pub count: usize,
    pub degrees: bool,
}

impl Operations {
    // The operations that apply.
    pub fn applied(&self) -> &[TransformOp]
        ensures { result.now ≡ take self.now.count self.now.ops }
    {
        &self.ops[..self.count.min(16)]
    }
}

// The angle a of an operation, in degrees where the mark says so and in radians otherwise.
#[tactic(auto, unfolding(crate::specs::Angle::angle_radians))]
pub fn angle_radians(a: f64, degrees: bool) -> Radians
    ensures { result ≡ Angle.angle_radians degrees a }
{
    if degrees {
        trig::to_radians(Degrees(a))
    } else {
        Radians(a)
    }
}

// The rotation about an axis by the angle of an operation.
#[tactic(auto, unfolding(crate::specs::Ops::rotation_by))]
fn rotation(axis: Vec3, a: f64, degrees: bool) -> Mat4
    ensures { result ≡ Ops.rotation_by degrees axis a }
{
    math_rotation::rotation(axis, angle_radians(a, degrees))
}

// The matrix of an operation.
#[tactic(auto, unfolding(crate::specs::Ops::op_matrix))]
fn op_matrix(op: TransformOp, degrees: bool) -> Mat4
    ensures { result ≡ Ops.op_matrix degrees op }
{
    match op {
        TransformOp::Translate(v) => math_matrix::translation(v),
        TransformOp::RotateOrigin(v, a) => rotation(v, a, degrees),
        TransformOp::RotateX(a) => rotation(Vec3::unit(0), a, degrees),
        TransformOp::RotateY(a) => rotation(Vec3::unit(1), a, degrees),
        TransformOp::RotateZ(a) => rotation(Vec3::unit(2), a, degrees),
        TransformOp::Scale(s) => math_matrix::scaling(Vec3::new(s, s, s)),
        TransformOp::Scale3(v) => math_matrix::scaling(v),
        TransformOp::Matrix(p, q, r, s) => math_matrix::from_rows(p, q, r, s),
    }
}

// The matrix of operations: each in turn multiplies from the left what those before it gave.
pub fn fold(o: &Operations) -> Mat4
    ensures { result ≡ Ops.folded o.now.degrees (take o.now.count o.now.ops) }
{
    let mut acc = math_matrix::identity();
    for op in o.applied() {
        acc = math_matrix_ops::product(op_matrix(*op, o.degrees), acc);
    }
    acc
}
