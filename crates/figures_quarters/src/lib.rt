// Text of the program `figures`: which of the four points of the unit circle on the axes x and y are vertices of a mesh, of the first count vertices of v,
// three floats each. It is put into a lent slice of bytes from place at on, as far as it fits. A function that puts answers the place after its text.
#![tactic(auto)]

ghost use Rattle.std.specs.Prelude.{◌≡◌};
ghost use Rattle.figures_quarters.specs.Quarters.{flat, if_vertex, none_of, quarters_of};
ghost use Rattle.figures_same.specs.Vertices.{has_vertex};
ghost use Rattle.slice_text.specs.Line.{line, Puts};

use figures_points::put_point;
use math::Vec3;
use slice_text::put;

// Whether (x,y,0) is a vertex.
fn is_vertex(v: &[f64], count: usize, x: f64, y: f64) -> bool
    ensures { result ≡ has_vertex v.now count (flat x y) }
{
    figures_same::has_vertex(v, count, Vec3 { x: x, y: y, z: 0.0 })
}

// The point (x,y,0) after a blank, where it is a vertex.
fn put_if_vertex(out: &mut [u8], at: usize, v: &[f64], count: usize, x: f64, y: f64) -> usize
    ensures { Puts (if_vertex v.now count x y) (line out.old at) (line out.new result) }
{
    if is_vertex(v, count, x, y) {
        let to = put(out, at, b" ");
        return put_point(out, to, Vec3 { x: x, y: y, z: 0.0 });
    }
    at
}

// A word where none of the four is a vertex.
fn put_none(out: &mut [u8], at: usize, v: &[f64], count: usize) -> usize
    ensures { Puts (none_of v.now count) (line out.old at) (line out.new result) }
{
    let on_x = is_vertex(v, count, 1.0, 0.0) | is_vertex(v, count, -1.0, 0.0);
    let on_y = is_vertex(v, count, 0.0, 1.0) | is_vertex(v, count, 0.0, -1.0);
    if on_x | on_y {
        return at;
    }
    put(out, at, b" none")
}

// Those of the four that are vertices, in the order of their angles, to the end of the line.
pub fn put_quarters(out: &mut [u8], at: usize, v: &[f64], count: usize) -> usize
    ensures { Puts (quarters_of v.now count) (line out.old at) (line out.new result) }
{
    let mut to = put(out, at, b"vertices at");
    to = put_if_vertex(out, to, v, count, 1.0, 0.0);
    to = put_if_vertex(out, to, v, count, 0.0, 1.0);
    to = put_if_vertex(out, to, v, count, -1.0, 0.0);
    to = put_if_vertex(out, to, v, count, 0.0, -1.0);
    to = put_none(out, to, v, count);
    put(out, to, b"\n")
}
