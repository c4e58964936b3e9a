// Small functions on f64 that the other crates share, each for every float.
#![tactic(auto)]

ghost use Rattle.std.specs.Prelude.{◌≡◌};
ghost use Rattle.std.specs.Float.Ieee.Scale.{finite};
ghost use Rattle.ieee.specs.Number.{minimum, maximum, absolute};

mod bits;

pub use bits::{bits_of, from_bits};

// core::f64::consts::PI.
pub const PI: f64 = 3.141592653589793;

// core::f64::consts::TAU.
pub const TAU: f64 = 6.283185307179586;

// f64::is_finite: whether x is a number, neither a NaN nor an infinity.
pub fn is_finite(x: f64) -> bool
    ensures { result ≡ finite x }
{
    let d = x - x;
    d == d
}

// f64::min: the smaller of a and b, a where neither is smaller, and the other one where one is a NaN.
pub fn min(a: f64, b: f64) -> f64
    ensures { result ≡ minimum a b }
{
    if b < a { b } else { if a == a { a } else { b } }
}

// f64::max: the larger of a and b, a where neither is larger, and the other one where one is a NaN.
pub fn max(a: f64, b: f64) -> f64
    ensures { result ≡ maximum a b }
{
    if a < b { b } else { if a == a { a } else { b } }
}

// f64::abs: x without its sign.
pub fn abs(x: f64) -> f64
    ensures { result ≡ absolute x }
{
    if x < 0.0 { -x } else { x + 0.0 }
}
