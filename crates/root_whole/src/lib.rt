// Square roots of whole numbers, to the nearest whole number: a guess that is tested by its square, and else digit by digit.
#![tactic(auto)]

ghost use Rattle.std.specs.Prelude.{◌≡◌, ◌+◌, ◌*◌, ◌^◌, ◌<◌, ◌≤◌};
ghost use Rattle.root_whole.specs.Whole.{near_root};

use std::num::wrapping_sub_u64;

mod digits;
mod guess;

// The square root of m × 2 ^ 52, to the nearest whole number.
// h is a guess of 16 times the root of m. Where it passes its test, 256 × m is h × h + a, and h is not too large and by less than 8 too small.
// Then a × 2 ^ 21 is h × l + d, so m × 2 ^ 52 is q × q - l × l + d × 2 ^ 23, and l × l is below q. A guess that does not pass costs time only.
pub fn near_root(m: u64) -> u64
    requires { (2 ^ 52 ≤ m) × (m + 2 ≤ 2 ^ 54) }
    ensures { (result ≡ near_root (m * 2 ^ 52)) × (2 ^ 52 ≤ result) × (result < 2 ^ 53) }
{
    let h = guess::guess(m);
    let a = wrapping_sub_u64(m * 256, h * h);
    if a > 16 * h {
        return digits::root_by_digits(m);
    }
    let n = a * 0x20_0000;
    let l = n / h;
    let d = n % h;
    let q = h * 0x40_0000 + l;
    if d * 0x80_0000 > l * l + q { q + 1 } else { q }
}
