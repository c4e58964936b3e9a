// A square root, a binary digit at a time.
ghost use Rattle.std.specs.Prelude.{◌≡◌, ◌+◌, ◌*◌, ◌^◌, ◌<◌, ◌≤◌};
ghost use Rattle.root_whole.specs.Whole.{near_root};

// The square root of m × 2 ^ 52, to the nearest whole number.
// b is the weight of digit k, from 2 ^ 52 down to 1, and rest is (m × 2 ^ 52 - q × q) / b. After the last digit it is twice m × 2 ^ 52 - q × q.
pub(crate) fn root_by_digits(m: u64) -> u64
    requires { (2 ^ 52 ≤ m) × (m + 2 ≤ 2 ^ 54) }
    ensures { (result ≡ near_root (m * 2 ^ 52)) × (2 ^ 52 ≤ result) × (result < 2 ^ 53) }
{
    let mut b: u64 = 0x10_0000_0000_0000;
    let mut q: u64 = 0;
    let mut rest: u64 = m;
    for _k in 0..53u64 {
        let t = 2 * q + b;
        if t <= rest {
            rest = rest - t;
            q = q + b;
        }
        rest = 2 * rest;
        b = b / 2;
    }
    if rest > 2 * q { q + 1 } else { q }
}
