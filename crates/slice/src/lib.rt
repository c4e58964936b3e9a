// What one lent slice holds: how many places of three it has, whether its first elements pass a test,
// and zeros from a place on to its end.
#![tactic(auto)]

ghost use Rattle.std.specs.Prelude.{◌≡◌, ◌≤◌, Bool, length, take, ltb};
ghost use Rattle.std.specs.Float.Ieee.Scale.{finite};
ghost use Rattle.slice.specs.Cleared.{cleared_from};
ghost use Rattle.slice.specs.Every.{every, counted_places};

// Writes `zero` in each place from `from` on.
pub fn clear_from<T: Copy>(s: &mut [T], from: usize, zero: T)
    ensures { s.new ≡ cleared_from zero from s.old }
{
    for i in from..s.len() {
        s[i] = zero;
    }
}

// Whether every element passes the test. It has no early end, so that several elements are tested at once.
pub fn all_pass<T: Copy, F: Fn(T) -> bool>(s: &[T], test: F) -> bool
    requires { F.IsAlwaysCallable test }
    ensures { (k : T → Bool) → ((x : T) (b : Bool) → F.post test x b → b ≡ k x) → result ≡ every k s.now }
{
    let mut ok = true;
    for x in s {
        ok = ok & test(*x);
    }
    ok
}

// A number of 32 bits as one that counts places.
// Named, for the edits wide_halved and wide_low_16_bits, which change its line: std has no usize::from of a u32.
pub fn wide(x: u32) -> usize
    ensures { result ≡ x }
{
    x as usize
}

// The places of a slice that count, three elements each: a 32-bit number can count no more than 4,294,967,295.
#[tactic(auto, unfolding(crate::specs::Every::counted_places))]
pub fn counted_places(len: usize) -> usize
    ensures { result ≡ counted_places len }
{
    (len / 3).min(4294967295)
}

// Whether the first count numbers are below n.
pub fn all_below(numbers: &[u32], count: usize, n: u32) -> bool
    requires { count ≤ length numbers.now }
    ensures { result ≡ every (λ i. ltb i n) (take count numbers.now) }
{
    all_pass(&numbers[..count], |i| i < n)
}

// Whether the first count floats are finite.
pub fn all_finite(floats: &[f64], count: usize) -> bool
    requires { count ≤ length floats.now }
    ensures { result ≡ every finite (take count floats.now) }
{
    all_pass(&floats[..count], ieee::is_finite)
}
