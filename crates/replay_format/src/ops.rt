// Operations: 136 bytes each, a kind and sixteen floats.
ghost use Rattle.std.specs.Prelude.{◌≡◌, ◌+◌, ◌≤◌, length};
ghost use Rattle.replay_format.specs.Layout.{op_at};

use transform::TransformOp;

// The operation at place at: a kind 1 to 8 in its first byte, its numbers from byte 8 on. Any other kind counts as 8.
pub fn op_at(b: &[u8], at: usize) -> TransformOp
    requires { at + 136 ≤ length b.now }
    ensures { result ≡ op_at b.now at }
{
    transform_bytes::op_of_kind(b[at], b, at + 8)
}
