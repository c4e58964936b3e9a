// The operations of a case, of which 16 are kept.
ghost use Rattle.std.specs.Prelude.{◌≡◌};
ghost use Rattle.replay_head.specs.Kept.{ops_of};

use transform::TransformOp;

// The first of count operations at the start of b, of which 16 are kept.
pub fn ops(b: &[u8], count: usize) -> [TransformOp; 16]
    ensures { result ≡ ops_of b.now count }
{
    let none = TransformOp::Scale(1.0);
    let mut out = [none; 16];
    let n = (b.len() / 136).min(count).min(16);
    for i in 0..n {
        let op = replay_format::op_at(b, 136 * i);
        out[i] = op;
    }
    out
}
