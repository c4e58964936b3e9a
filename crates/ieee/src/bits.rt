// Floats by their bits. Every NaN pattern is the NaN, and the NaN is written as 7FF8000000000000.
ghost use Rattle.std.specs.Prelude.{◌≡◌, from_bits, to_bits};
ghost use Rattle.std.specs.Float.{binary64};

// The float of a bit pattern.
pub fn from_bits(b: u64) -> f64
    ensures { result ≡ from_bits binary64 b }
{
    if 0x7FF0000000000000 < b % 0x8000000000000000 {
        let z = 0.0;
        z / z
    } else {
        f64::from_bits(b)
    }
}

// The bits of a float.
pub fn bits_of(x: f64) -> u64
    ensures { result ≡ to_bits binary64 x }
{
    if x != x {
        0x7FF8000000000000
    } else {
        f64::to_bits(x)
    }
}
