// One triangle of the ear clipper (src/tessellate.rs, triangulate_polygon). v is the corner list, two floats to a corner.
#![tactic(auto)]

ghost use Rattle.std.specs.Prelude.{◌≡◌, ◌==◌, ◌||◌, ◌+◌, ◌*◌, ◌<◌, length};
ghost use Rattle.outline.specs.Corners.{point, same};
ghost use Rattle.outline_triangle.specs.Triangle.{cross as cross·, tolerance as tolerance·, in_triangle, blocks as blocks·};

use outline::Point;

// The Rust's ip, ic and inx: the corner numbers at the index before one of idx, at it, and at the one after it; and a, b and c, their points.
#[derive(Clone, Copy)]
pub struct Triangle {
    pub ip: u32,
    pub ic: u32,
    pub inx: u32,
    pub a: Point,
    pub b: Point,
    pub c: Point,
}

// The point of corner o: the Rust's v[o].
pub fn point_of(v: &[f64], o: u32) -> Point
    requires { 2 * o + 1 < length v.now }
    ensures { result ≡ point v.now o }
{
    outline::corner(v, o as usize)
}

// The Rust's closure cross, of the points a, b and c: above 0 where they run counter-clockwise.
pub fn cross(a: Point, b: Point, c: Point) -> f64
    ensures { result ≡ cross· a b c }
{
    (b.x - a.x) * (c.y - a.y) - (b.y - a.y) * (c.x - a.x)
}

// The Rust's eps: 1e-12 times the square of scale, the largest absolute value of a coordinate, 1e-300 at least.
pub fn tolerance(v: &[f64]) -> f64
    ensures { result ≡ tolerance· v.now }
{
    let m = v
        .iter()
        .copied()
        .fold(0.0, |m, x| ieee::max(m, ieee::abs(x)));
    let scale = ieee::max(m, 1e-300);
    1e-12 * scale * scale
}

// Whether each of cross(a, b, p), cross(b, c, p) and cross(c, a, p) is at least -eps. Most corners lie beyond the side from c to a or that from b to c.
// These two are one test, which takes less time where numbers overflow to infinities and NaNs. The order does not change the answer.
fn in_triangle(eps: f64, a: Point, b: Point, c: Point, p: Point) -> bool
    ensures { result ≡ in_triangle eps a b c p }
{
    (cross(c, a, p) >= -eps) & (cross(b, c, p) >= -eps) && cross(a, b, p) >= -eps
}

impl Triangle {
    // Whether o is the number of one of its corners.
    fn names(self, o: u32) -> bool
        ensures { result ≡ (o == self.ip || (o == self.ic || o == self.inx)) }
    {
        o == self.ip || o == self.ic || o == self.inx
    }

    // Whether p equals one of its points.
    fn touches(self, p: Point) -> bool
        ensures { result ≡ (same p self.a || (same p self.b || same p self.c)) }
    {
        p == self.a || p == self.b || p == self.c
    }
}

// Whether corner o keeps t from being clipped. Most corners lie outside, so that is asked first; the order does not change the answer.
pub fn blocks(v: &[f64], eps: f64, t: Triangle, o: u32) -> bool
    requires { 2 * o + 1 < length v.now }
    ensures { result ≡ blocks· v.now eps t o }
{
    let p = point_of(v, o);
    in_triangle(eps, t.a, t.b, t.c, p) && !t.names(o) && !t.touches(p)
}
