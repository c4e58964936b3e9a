// The corners of an outline in a lent list, two floats to a corner: reading and writing them.
// Not a slice of Point: the list is lent as floats, by C too, and whether they are whole corners is refusal 4.
#![tactic(auto)]

ghost use Rattle.std.specs.Prelude.{◌≡◌, ◌+◌, ◌*◌, ◌<◌, ◌≤◌, length};
ghost use Rattle.outline.specs.Corners.{point};
ghost use Rattle.outline.specs.Slices.{WroteCorner};

// A point of an outline's plane. Its == is the definition `same`: equal as floats go, as the Rust's == on corners.
#[derive(Clone, Copy, PartialEq)]
pub struct Point {
    pub x: f64,
    pub y: f64,
}

// The axes of a plane.
#[derive(Clone, Copy)]
pub struct Axes {
    pub u: usize,
    pub v: usize,
}

// The point of corner i: the Rust's v[i].
pub fn corner(corners: &[f64], i: usize) -> Point
    requires { 2 * i + 1 < length corners.now }
    ensures { result ≡ point corners.now i }
{
    let at = 2 * i;
    Point {
        x: corners[at],
        y: corners[at + 1],
    }
}

// The point of corner m of out becomes p.
pub fn put_corner(out: &mut [f64], m: usize, p: Point)
    requires { 2 * m + 2 ≤ length out.old }
    ensures { WroteCorner m p out.old out.new }
{
    let at = 2 * m;
    out[at] = p.x;
    out[at + 1] = p.y;
}
