// Floats from -2^400 to 2^400. Products and sums of a few of them are finite, so what is computed of them needs no test.
#![tactic(auto)]

ghost use Rattle.std.specs.Prelude.{◌≡◌, ◌≤◌, length, take};
ghost use Rattle.std.specs.Float.Ieee.Scale.{finite};
ghost use Rattle.slice.specs.Every.{every};
ghost use Rattle.slice_bounded.specs.Bounded.{is_bounded, Small};

// Whether x is from -2^400 to 2^400. A NaN is not.
fn is_bounded(x: f64) -> bool
    ensures { result ≡ is_bounded x }
{
    (-2.5822498780869086e120 <= x) & (x <= 2.5822498780869086e120)
}

// Whether the first count floats are.
pub fn all_bounded(floats: &[f64], count: usize) -> bool
    requires { count ≤ length floats.now }
    ensures { result ≡ every is_bounded (take count floats.now) }
{
    slice::all_pass(&floats[..count], is_bounded)
}

// Whether the first count floats are finite. Nothing is read where `small` says that they are from -2^400 to 2^400.
pub fn all_finite(floats: &[f64], count: usize, small: bool) -> bool
    requires { Small floats.now count small }
    ensures { result ≡ every finite (take count floats.now) }
{
    if small {
        return true;
    }
    slice::all_finite(floats, count)
}
