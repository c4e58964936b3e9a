// Tables of sines and cosines, so that each is worked out once.
ghost use Rattle.std.specs.Prelude.{◌≡◌, ◌<◌, length};
ghost use Rattle.surface.specs.Turns.{turn_at, TurnsWithin, Filled};

use surface_spec::Line;
use trig_spec::SinCos;

// A kind of sines and cosines by number: of a sphere's rows or segments, of an axis that is an angle, of a rotated outline's steps.
#[derive(Clone, Copy)]
pub enum Turns {
    Latitudes {
        nt: usize,
    },
    Longitudes {
        np: usize,
    },
    OnLine {
        l: Line,
    },
    Angles {
        full: bool,
        start: f64,
        span: f64,
        n: usize,
    },
}

// The sine and cosine number k.
pub fn turn_at(t: Turns, k: usize) -> SinCos
    requires { TurnsWithin t k }
    ensures { result ≡ turn_at t k }
{
    match t {
        Turns::Latitudes { nt } => surface_sphere::latitude(nt, k),
        Turns::Longitudes { np } => surface_sphere::longitude(np, k),
        Turns::OnLine { l } => trig::sin_cos(surface_axis::line_at(l, k)),
        Turns::Angles {
            full,
            start,
            span,
            n,
        } => trig::sin_cos(surface_outline::angle(full, start, span, n, k)),
    }
}

// The entries 0 to n of a table.
pub fn fill_entries(t: Turns, n: usize, table: &mut [SinCos])
    requires turns_within { TurnsWithin t n }
    requires n_in_bounds { n < length table.old }
    ensures { Filled t n table.new }
{
    for k in 0..=n {
        table[k] = turn_at(t, k);
    }
}
