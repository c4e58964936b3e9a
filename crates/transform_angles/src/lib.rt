// Check 2 of docs/SCOPE.md on the operations: their angles.
#![tactic(auto)]

ghost use Rattle.std.specs.Prelude.{◌≡◌, take};
ghost use Rattle.transform.specs.Angle as Angle;
ghost use Rattle.transform.specs.Checks as Checks;

use transform::{Operations, TransformOp};
use trig::Radians;

// Whether an angle is at most 1000 in absolute value.
pub fn within_1000(r: Radians) -> bool
    ensures { result ≡ Angle.within1000 r }
{
    ieee::abs(r.0) <= 1000.0
}

// Whether the rotation angle of an operation is within 1000, in radians. True of an operation without one.
fn op_angle_within(op: TransformOp, degrees: bool) -> bool
    ensures { result ≡ Checks.op_angle_within degrees op }
{
    match op {
        TransformOp::Translate(_) => true,
        TransformOp::RotateOrigin(_, a) => within_1000(transform::angle_radians(a, degrees)),
        TransformOp::RotateX(a) => within_1000(transform::angle_radians(a, degrees)),
        TransformOp::RotateY(a) => within_1000(transform::angle_radians(a, degrees)),
        TransformOp::RotateZ(a) => within_1000(transform::angle_radians(a, degrees)),
        TransformOp::Scale(_) => true,
        TransformOp::Scale3(_) => true,
        TransformOp::Matrix(_, _, _, _) => true,
    }
}

// Whether every rotation angle of the operations is within 1000, in radians.
#[tactic(auto, unfolding(transform::specs::Checks::ops_angles_within))]
pub fn ops_angles_within(o: &Operations) -> bool
    ensures { result ≡ Checks.ops_angles_within o.now.degrees (take o.now.count o.now.ops) }
{
    slice::all_pass(o.applied(), |op| op_angle_within(op, o.degrees))
}
