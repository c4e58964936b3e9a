// A guess of a square root, by whole numbers.
ghost use Rattle.std.specs.Prelude.{◌+◌, ◌^◌, ◌<◌, ◌≤◌};

// About 16 times the square root of m. Nothing is proved of how near it is: `near_root` tests what it gets.
// t is the 31 digits of m after its first. c is 2 ^ 30 times the square root of 1 + t / 2 ^ 31, by a cubic that is within 1 part in 14,000, and s is c,
// or c times the square root of 2 where m has 54 digits. The mean of s and 256 × m / s, a step of Heron's, is at most 6 too large; 6 are taken off it.
pub(crate) fn guess(m: u64) -> u64
    requires { (2 ^ 52 ≤ m) × (m < 2 ^ 54) }
    ensures { result + 16 < 2 ^ 32 }
{
    let wide = m / 0x20_0000_0000_0000;
    let t = (m >> wide) / 0x20_0000 % 0x8000_0000;
    let u = t * t / 0x8000_0000;
    let v = 115894705 - t * 26776358 / 0x8000_0000;
    let c = 1073816357 + t * 533907646 / 0x8000_0000 - u * v / 0x8000_0000;
    let s = c * (0x8000_0000 + wide * 0x3504_f334) / 0x8000_0000;
    (s - 12 + m * 256 / s) / 2
}
