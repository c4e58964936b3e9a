// The winding of an outline's corners (src/tessellate.rs, signed_area and ccw_polygon), and the axes of its plane (src/primitives/poly.rs).
#![tactic(auto)]

ghost use Rattle.std.specs.Prelude.{◌≡◌, ◌*◌, ◌≤◌, length, take};
ghost use Rattle.outline.specs.Area.{wedge as wedge·, signed_area};
ghost use Rattle.outline.specs.Ccw.{swapped, reversed, ccw_polygon, prepared};
ghost use Rattle.outline.specs.Axes.{plane_axes};
ghost use Rattle.outline.specs.Slices.{Copied, Holds};

use outline::{Axes, Point, corner, put_corner};
use outline_clean::clean_polygon;

// What the side from a to b adds to the Rust's sum, which is twice the area.
fn wedge(a: Point, b: Point) -> f64
    ensures { result ≡ wedge· a b }
{
    a.x * b.y - b.x * a.y
}

// The Rust's signed_area: half the sum over the sides, above 0 where the corners run counter-clockwise.
fn signed_area(v: &[f64]) -> f64
    ensures { result ≡ signed_area v.now }
{
    let n = v.len() / 2;
    let mut s = 0.0;
    for i in 0..n {
        s += wedge(corner(v, i), corner(v, (i + 1) % n));
    }
    s / 2.0
}

// The Rust's p.reverse(), in place: the first n corners of out, from the last to the first.
fn reverse(out: &mut [f64], n: usize)
    requires { 2 * n ≤ length out.old }
    ensures { take (2 * n) out.new ≡ reversed (take (2 * n) out.old) }
{
    for i in 0..n / 2 {
        let j = n - i - 1;
        let p = corner(out, i);
        let q = corner(out, j);
        put_corner(out, i, q);
        put_corner(out, j, p);
    }
}

// The corners of v with their coordinates exchanged, at the start of out; and how many there are.
fn copy_swapped(v: &[f64], out: &mut [f64]) -> usize
    requires { length v.now ≤ length out.old }
    ensures { Copied (swapped v.now) result out.old out.new }
{
    let n = v.len() / 2;
    for i in 0..n {
        let p = corner(v, i);
        put_corner(out, i, Point { x: p.y, y: p.x });
    }
    n
}

// The corners that the Rust's ccw_polygon returns: cleaned, and reversed where their signed area is below 0. They are at the start of out; and how many there
// are. What comes after them is of no account.
pub fn ccw_polygon(v: &[f64], out: &mut [f64]) -> usize
    requires { length v.now ≤ length out.old }
    ensures { Holds (ccw_polygon v.now) result out.new }
{
    let n = clean_polygon(v, out);
    if signed_area(&out[..2 * n]) < 0.0 {
        reverse(out, n);
        return n;
    }
    n
}

// The corners that a solid is made from: those of ccw_polygon, of the corners swapped where swap says so (a rotated outline). They are at the start of out; and
// how many there are.
pub fn prepare(list: &[f64], swap: bool, out: &mut [f64]) -> usize
    requires { (length list.now ≤ 1024) × (length list.now ≤ length out.old) }
    ensures { Holds (prepared swap list.now) result out.new }
{
    if swap {
        let mut swapped = [0.0; 1024];
        let m = copy_swapped(list, &mut swapped);
        return ccw_polygon(&swapped[..2 * m], out);
    }
    ccw_polygon(list, out)
}

// The axes of the plane whose normal is axis n.
pub fn plane_axes(n: u8) -> Axes
    ensures { result ≡ plane_axes n }
{
    let k = n as usize;
    Axes {
        u: (k + 1) % 3,
        v: (k + 2) % 3,
    }
}
