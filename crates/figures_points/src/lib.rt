// Text of points, corners and triangles, put into a lent slice of bytes from place at on, as far as it fits.
// Each function answers the place after its text.
#![tactic(auto)]

ghost use Rattle.figures_points.specs.Lists.{up_to, point_of, point_at, corner_of, corner_at, next_of, number_after_blank, triangle_of, triangle_at};
ghost use Rattle.slice_text.specs.Line.{line, Puts};

use figures_text::put_float;
use math::Vec3;
use slice_text::{put, put_decimal};

// A comma and a float.
fn put_next(out: &mut [u8], at: usize, x: f64) -> usize
    ensures { Puts (next_of x) (line out.old at) (line out.new result) }
{
    let to = put(out, at, b",");
    put_float(out, to, x)
}

pub fn put_point(out: &mut [u8], at: usize, p: Vec3) -> usize
    ensures { Puts (point_of p) (line out.old at) (line out.new result) }
{
    let mut to = put(out, at, b"(");
    to = put_float(out, to, p.x);
    to = put_next(out, to, p.y);
    to = put_next(out, to, p.z);
    put(out, to, b")")
}

// Point i of v, which has three floats a point, after a blank.
fn put_point_at(out: &mut [u8], at: usize, v: &[f64], i: usize) -> usize
    ensures { Puts (point_at v.now i) (line out.old at) (line out.new result) }
{
    if v.len() / 3 <= i {
        return at;
    }
    let to = put(out, at, b" ");
    let k = 3 * i;
    put_point(
        out,
        to,
        Vec3 {
            x: v[k],
            y: v[k + 1],
            z: v[k + 2],
        },
    )
}

// The first n points of v. As one function over a closure that puts an item, this, put_corners and put_triangles would each still state what the closure puts.
pub fn put_points(out: &mut [u8], at: usize, v: &[f64], n: usize) -> usize
    ensures { Puts (up_to n (point_at v.now)) (line out.old at) (line out.new result) }
{
    let mut to = at;
    for i in 0..n {
        to = put_point_at(out, to, v, i);
    }
    to
}

// A corner after a blank.
fn put_corner(out: &mut [u8], at: usize, x: f64, y: f64) -> usize
    ensures { Puts (corner_of x y) (line out.old at) (line out.new result) }
{
    let mut to = put(out, at, b" (");
    to = put_float(out, to, x);
    to = put_next(out, to, y);
    put(out, to, b")")
}

// Corner i of v, which has two floats a corner.
fn put_corner_at(out: &mut [u8], at: usize, v: &[f64], i: usize) -> usize
    ensures { Puts (corner_at v.now i) (line out.old at) (line out.new result) }
{
    if v.len() / 2 <= i {
        return at;
    }
    let k = 2 * i;
    put_corner(out, at, v[k], v[k + 1])
}

// The first n corners of v.
pub fn put_corners(out: &mut [u8], at: usize, v: &[f64], n: usize) -> usize
    ensures { Puts (up_to n (corner_at v.now)) (line out.old at) (line out.new result) }
{
    let mut to = at;
    for i in 0..n {
        to = put_corner_at(out, to, v, i);
    }
    to
}

// A blank and a number.
fn put_number(out: &mut [u8], at: usize, n: u32) -> usize
    ensures { Puts (number_after_blank n) (line out.old at) (line out.new result) }
{
    let to = put(out, at, b" ");
    put_decimal(out, to, n as u64)
}

// The three numbers of a triangle, each after a blank.
fn put_triangle(out: &mut [u8], at: usize, a: u32, b: u32, c: u32) -> usize
    ensures { Puts (triangle_of a b c) (line out.old at) (line out.new result) }
{
    let mut to = put_number(out, at, a);
    to = put_number(out, to, b);
    put_number(out, to, c)
}

// Triangle i of t, which has three numbers a triangle: after a comma where it is not the first.
fn put_triangle_at(out: &mut [u8], at: usize, t: &[u32], i: usize) -> usize
    ensures { Puts (triangle_at t.now i) (line out.old at) (line out.new result) }
{
    if t.len() / 3 <= i {
        return at;
    }
    let k = 3 * i;
    if i == 0 {
        return put_triangle(out, at, t[k], t[k + 1], t[k + 2]);
    }
    let to = put(out, at, b",");
    put_triangle(out, to, t[k], t[k + 1], t[k + 2])
}

// The first n triangles of t.
pub fn put_triangles(out: &mut [u8], at: usize, t: &[u32], n: usize) -> usize
    ensures { Puts (up_to n (triangle_at t.now)) (line out.old at) (line out.new result) }
{
    let mut to = at;
    for i in 0..n {
        to = put_triangle_at(out, to, t, i);
    }
    to
}
