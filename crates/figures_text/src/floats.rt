// Floats: whole numbers and halves in decimal, 2^-k for k from 2 to 1,022 as such, inf, NaN, any other by 16 hexadecimal digits; 2^-1 is 0.5.
ghost use Rattle.std.specs.Prelude.{◌≡◌};
ghost use Rattle.std.specs.Float.{binary64};
ghost use Rattle.std.specs.Float.Ieee.{to_bits};
ghost use Rattle.figures_text.specs.Floats.{is_whole, is_small_power, by_bits_of, magnitude_of, float_bits_of};
ghost use Rattle.slice_text.specs.Line.{line, Puts};

use slice_text::{put, put_decimal, put_hex};

// Whether y is below 10^15 and the whole number nearest to itself.
fn is_whole(y: f64) -> bool
    ensures { result ≡ is_whole y }
{
    if y < 1000000000000000.0 {
        let w = ieee_whole::nearest_whole(y);
        return w.value == y;
    }
    false
}

// Whether bits are those of 2^-k, for k from 1 to 1,022.
fn is_small_power(b: u64) -> bool
    ensures { result ≡ is_small_power b }
{
    let exponent = b / 4503599627370496;
    (b % 4503599627370496 == 0) & (0 < exponent) & (exponent < 1023)
}

// A float by its bits: 2^-k as such, inf, NaN, any other as 16 hexadecimal digits.
fn put_by_bits(out: &mut [u8], at: usize, b: u64) -> usize
    ensures { Puts (by_bits_of b) (line out.old at) (line out.new result) }
{
    if is_small_power(b) {
        let to = put(out, at, b"2^-");
        return put_decimal(out, to, 1023 - b / 4503599627370496);
    }
    if b == 0x7FF0000000000000 {
        return put(out, at, b"inf");
    }
    if 0x7FF0000000000000 < b {
        return put(out, at, b"NaN");
    }
    put_hex(out, at, b)
}

// A float without its sign.
fn put_magnitude(out: &mut [u8], at: usize, b: u64) -> usize
    ensures { Puts (magnitude_of b) (line out.old at) (line out.new result) }
{
    let y = ieee::from_bits(b);
    if is_whole(y) {
        return put_decimal(out, at, ieee_whole::ceil_to_usize(y) as u64);
    }
    // a half: twice it is whole, and y + y is exact
    if is_whole(y + y) {
        let to = put_decimal(out, at, ieee_whole::ceil_to_usize(y - 0.5) as u64);
        return put(out, to, b".5");
    }
    put_by_bits(out, at, b)
}

// The float of a bit pattern.
pub fn put_float_bits(out: &mut [u8], at: usize, b: u64) -> usize
    ensures { Puts (float_bits_of b) (line out.old at) (line out.new result) }
{
    if 0x8000000000000000 <= b {
        let to = put(out, at, b"-");
        return put_magnitude(out, to, b % 0x8000000000000000);
    }
    put_magnitude(out, at, b % 0x8000000000000000)
}

pub fn put_float(out: &mut [u8], at: usize, x: f64) -> usize
    ensures { Puts (float_bits_of (to_bits binary64 x)) (line out.old at) (line out.new result) }
{
    put_float_bits(out, at, ieee::bits_of(x))
}
