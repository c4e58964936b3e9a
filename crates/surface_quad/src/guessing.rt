// Guesses at the numbers of a box's points.
ghost use Rattle.std.specs.Prelude.{◌≡◌, ◌<◌, ◌^◌};
ghost use Rattle.surface_quad.specs.Guesses.{numbers_from, guesses_of};

use weld::FourNumbers;

// Four numbers, counted from base.
fn numbers_from(base: usize, a: usize, b: usize, c: usize, d: usize) -> FourNumbers
    requires { (base < 2 ^ 32) × (a < 8) × (b < 8) × (c < 8) × (d < 8) }
    ensures { result ≡ numbers_from base a b c d }
{
    FourNumbers {
        a: base + a,
        b: base + b,
        c: base + c,
        d: base + d,
    }
}

// The numbers of the points of face f in a box whose corners differ: they are numbered from `base` on in the order in which the faces
// show them. The welder tests each.
pub fn guesses(base: usize, f: usize) -> FourNumbers
    requires { (base < 2 ^ 32) × (f < 6) }
    ensures { result ≡ guesses_of base f }
{
    match f {
        0 => numbers_from(base, 0, 1, 2, 3),
        1 => numbers_from(base, 4, 5, 6, 7),
        2 => numbers_from(base, 0, 4, 7, 1),
        3 => numbers_from(base, 3, 2, 6, 5),
        4 => numbers_from(base, 0, 3, 5, 4),
        _ => numbers_from(base, 1, 7, 6, 2),
    }
}
