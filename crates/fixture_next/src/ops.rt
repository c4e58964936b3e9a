// The operations of the next solid.
ghost use Rattle.std.specs.Prelude.{◌≡◌};
ghost use Rattle.fixture_next.specs.Ready as Ready;
ghost use Rattle.fixture_next.specs.Next as Next;

use fixture_field::is_solid;
use fixture_payload::payload_at;
use fixture_solid::read_op;
use transform::TransformOp;

// One operation more, where sixteen places have room for it.
fn with_op(ops: [TransformOp; 16], count: usize, op: TransformOp) -> [TransformOp; 16]
    ensures { Next.OneMore ops count op result }
{
    let mut out = ops;
    if count < 16 {
        out[count] = op;
    }
    out
}

// The operations of the next solid from a place on, of which sixteen are kept.
pub fn next_ops(file: &[u8], at: usize) -> [TransformOp; 16]
    requires { Ready.Ready file.now at }
    ensures { result ≡ Next.ops_from file.now at }
{
    let none = TransformOp::Scale(1.0);
    let mut ops = [none; 16];
    let mut count = 0;
    let mut place = at;
    // A `while`: a field says itself how far the next one is, so no range counts them; an iterator of fields would be this step and its laws.
    while place < file.len() {
        let tag = file[place];
        if is_solid(tag) {
            return ops;
        }
        let p = payload_at(file, place);
        place = place + 3 + p.len();
        if tag == 0x05 {
            let op = read_op(p);
            let more = with_op(ops, count, op);
            ops = more;
            count += 1;
        }
    }
    ops
}
