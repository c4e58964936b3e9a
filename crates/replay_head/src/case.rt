// A case. One whose call is 0 stands for none: it ends the run.
ghost use Rattle.std.specs.Prelude.{◌≡◌, replicate};
ghost use Rattle.replay_head.specs.Cases.{case_of};
ghost use Rattle.replay_head.specs.Kept.{ops_of};

use crate::kept::ops;
use crate::shapes::shape_of;
use replay_format::Head;
use shape::Shape;
use transform::TransformOp;

// A case: its head, and its shape, which the calls other than 1 do not read.
#[derive(Clone, Copy)]
pub struct Case {
    pub head: Head,
    pub shape: Shape,
}

// The case of a head's 144 bytes.
pub fn case_of(b: &[u8; 144]) -> Case
    ensures { result ≡ case_of b.now }
{
    let h = replay_format::head_of(b);
    Case {
        head: h,
        shape: shape_of(h, b),
    }
}

pub fn none() -> Case
    ensures { result ≡ case_of (replicate 144 0) }
{
    let zeros = [0u8; 144];
    case_of(&zeros)
}

// The operations of a case, whose bytes are at the start of buf.
pub fn operations(c: Case, buf: &[u8; 65536]) -> [TransformOp; 16]
    ensures { result ≡ ops_of buf.now c.head.op_count }
{
    let h = c.head;
    ops(buf, slice::wide(h.op_count))
}
