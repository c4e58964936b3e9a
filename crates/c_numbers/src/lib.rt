// The root and its case, the sine and the cosine, for programs in other languages: tests/numbers links them.
#![tactic(auto)]

ghost use Rattle.std.specs.Prelude.{◌≡◌};
ghost use Rattle.root_case.specs.Case.{root_case};
ghost use Rattle.root.specs.Rounded.{Root};
ghost use Rattle.trig_spec.specs.Trig.{sin_cos};
ghost use Rattle.c_numbers.specs.Places.{place_of};

use root_case::root_case;

#[unsafe(no_mangle)]
pub extern "C" fn sizturga_sqrt(x: f64) -> f64
    ensures { Root x result }
{
    root::sqrt(x)
}

// The place of x's case in the list of `RootCase`, from 0 on.
#[unsafe(no_mangle)]
pub extern "C" fn sizturga_root_case(x: f64) -> u32
    ensures { result ≡ place_of (root_case x) }
{
    root_case(x) as u32
}

#[unsafe(no_mangle)]
pub extern "C" fn sizturga_sin(x: f64) -> f64
    ensures { result ≡ (sin_cos x).sin }
{
    let p = trig::sin_cos(x);
    p.sin
}

#[unsafe(no_mangle)]
pub extern "C" fn sizturga_cos(x: f64) -> f64
    ensures { result ≡ (sin_cos x).cos }
{
    let q = trig::sin_cos(x);
    q.cos
}
