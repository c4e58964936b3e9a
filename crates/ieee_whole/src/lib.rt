// Whole numbers of an f64: the ceiling, and the nearest one with its remainder modulo 4, each for every float.
#![tactic(auto)]

ghost use Rattle.std.specs.Prelude.{◌≡◌, ◌^◌, ◌≤◌, false, T, pos, neg_ℤ};
ghost use Rattle.std.specs.Float.Ieee as Ieee;
ghost use Rattle.std.specs.Float.{binary64, fin};
ghost use Rattle.ieee_whole.specs.Whole.{ceiling, whole_of, nearest_magnitude, mod4};

// A whole number as a float, and that number modulo 4.
#[derive(Clone, Copy, Debug, PartialEq)]
pub struct Whole {
    pub value: f64,
    pub mod_4: u64,
}

// From 2^52 on a float is whole.
const ALL_WHOLE: f64 = 4503599627370496.0;

// From 2^63 on a float is a multiple of 4.
const ALL_MULTIPLES_OF_4: f64 = 9223372036854775808.0;

// The first float above every u64.
const PAST_U64: f64 = 18446744073709551616.0;

// y.ceil() as usize: the least whole number that is no smaller than y, kept between 0 and 2^64 - 1; 0 for a NaN.
pub fn ceil_to_usize(y: f64) -> usize
    ensures { result ≡ ceiling y }
{
    if y > 0.0 {
        if y < ALL_WHOLE {
            let t = std::num::truncating_f64_to_u64(y);
            if (t as f64) < y {
                (t + 1) as usize
            } else {
                t as usize
            }
        } else if y < PAST_U64 {
            std::num::truncating_f64_to_u64(y) as usize
        } else {
            18446744073709551615
        }
    } else {
        0
    }
}

// The whole number nearest to a, which is not negative, a half going up.
fn half_up(a: f64) -> u64
    requires not_negative { T (Ieee.le (fin false 0 (pos 0)) a) }
    requires below_all_whole { T (Ieee.lt a (fin false 1 (pos 52))) }
    ensures nearest { result ≡ nearest_magnitude a }
    ensures at_most_all_whole { result ≤ 2 ^ 52 }
{
    (std::num::truncating_f64_to_u64(a + a) + 1) / 2
}

// n as a float, which is exact.
fn as_float(n: u64) -> f64
    requires { n ≤ 2 ^ 52 }
    ensures { result ≡ Ieee.of_int binary64 (pos n) }
{
    (n as i64) as f64
}

// −n as a float, +0.0 for n = 0.
fn minus_as_float(n: u64) -> f64
    requires { n ≤ 2 ^ 52 }
    ensures { result ≡ Ieee.of_int binary64 (neg_ℤ (pos n)) }
{
    (0 - (n as i64)) as f64
}

// −n modulo 4.
fn minus_mod_4(n: u64) -> u64
    ensures { result ≡ mod4 (neg_ℤ (pos n)) }
{
    (4 - n % 4) % 4
}

// The whole number nearest to p, halves away from zero, as a float, and it modulo 4.
pub fn nearest_whole(p: f64) -> Whole
    ensures { result ≡ whole_of p }
{
    if p < 0.0 {
        if p > -ALL_WHOLE {
            let n = half_up(-p);
            Whole {
                value: minus_as_float(n),
                mod_4: minus_mod_4(n),
            }
        } else if p > -ALL_MULTIPLES_OF_4 {
            Whole {
                value: p,
                mod_4: minus_mod_4(std::num::truncating_f64_to_u64(-p)),
            }
        } else {
            Whole { value: p, mod_4: 0 }
        }
    } else if p < ALL_WHOLE {
        let n = half_up(p);
        Whole {
            value: as_float(n),
            mod_4: n % 4,
        }
    } else if p < ALL_MULTIPLES_OF_4 {
        Whole {
            value: p,
            mod_4: std::num::truncating_f64_to_u64(p) % 4,
        }
    } else {
        Whole { value: p, mod_4: 0 }
    }
}
