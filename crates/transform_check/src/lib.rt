// Checks 4 and 1 of docs/SCOPE.md on the operations: their count and their numbers.
#![tactic(auto)]

ghost use Rattle.std.specs.Prelude.{◌≡◌, take};
ghost use Rattle.transform.specs.Checks as Checks;

use math_matrix::Row;
use transform::{Operations, TransformOp};

// Whether there are more than 16 operations.
pub fn too_many_ops(count: usize) -> bool
    ensures { result ≡ Checks.too_many_ops count }
{
    16 < count
}

// Whether the four numbers of a row are finite.
fn row_finite(r: Row) -> bool
    ensures { result ≡ Checks.row_finite r }
{
    ieee::is_finite(r.x) & ieee::is_finite(r.y) & ieee::is_finite(r.z) & ieee::is_finite(r.w)
}

// Whether every number of an operation is finite.
fn op_finite(op: TransformOp) -> bool
    ensures { result ≡ Checks.op_finite op }
{
    match op {
        TransformOp::Translate(v) => v.is_finite(),
        TransformOp::RotateOrigin(v, a) => v.is_finite() & ieee::is_finite(a),
        TransformOp::RotateX(a) => ieee::is_finite(a),
        TransformOp::RotateY(a) => ieee::is_finite(a),
        TransformOp::RotateZ(a) => ieee::is_finite(a),
        TransformOp::Scale(s) => ieee::is_finite(s),
        TransformOp::Scale3(v) => v.is_finite(),
        TransformOp::Matrix(p, q, r, s) => row_finite(p)
            & row_finite(q)
            & row_finite(r)
            & row_finite(s),
    }
}

// Whether every number of the operations is finite.
#[tactic(auto, unfolding(transform::specs::Checks::ops_finite))]
pub fn ops_finite(o: &Operations) -> bool
    ensures { result ≡ Checks.ops_finite (take o.now.count o.now.ops) }
{
    slice::all_pass(o.applied(), op_finite)
}
