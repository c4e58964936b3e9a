// Floats at places of a slice of bytes.
ghost use Rattle.std.specs.Prelude.{◌≡◌, ◌+◌, ◌≤◌, length};
ghost use Rattle.std.specs.Float.{binary64};
ghost use Rattle.std.specs.Float.Ieee.{to_bits};
ghost use Rattle.slice_bytes.specs.Bytes.{float_at, with_long};

use crate::bytes;
use ieee::{bits_of, from_bits};

// The float at place at.
pub fn float_at(b: &[u8], at: usize) -> f64
    requires { at + 8 ≤ length b.now }
    ensures { result ≡ float_at b.now at }
{
    from_bits(bytes::long_at(b, at))
}

// Writes a float at place at.
pub fn put_float(b: &mut [u8], at: usize, x: f64)
    requires { at + 8 ≤ length b.old }
    ensures { b.new ≡ with_long b.old at (to_bits binary64 x) }
{
    bytes::put_long(b, at, bits_of(x))
}
