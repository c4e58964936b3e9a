// What a drawn mesh is: open or closed, its measures, its first points and triangles, the box in its record.
ghost use Rattle.figures_lines.specs.Figures.{border_of, measures_of, first_of, bounds_of};
ghost use Rattle.slice_text.specs.Line.{line, Puts};

use figures_points::{put_point, put_points, put_triangles};
use figures_text::put_measured;
use math::BoundingBox;
use refusal::Refusal;
use slice_text::put;

// Whether the mesh is closed, to the end of the line.
pub fn put_border(out: &mut [u8], at: usize, closed: bool) -> usize
    ensures { Puts (border_of closed) (line out.old at) (line out.new result) }
{
    if closed {
        return put(out, at, b", closed\n");
    }
    put(out, at, b", open\n")
}

// The area and the signed volume.
pub fn put_measures(
    out: &mut [u8],
    at: usize,
    area: Result<u64, Refusal>,
    signed_volume: Result<u64, Refusal>,
) -> usize
    ensures { Puts (measures_of area signed_volume) (line out.old at) (line out.new result) }
{
    let mut to = put(out, at, b"  area ");
    to = put_measured(out, to, area);
    to = put(out, to, b", signed volume ");
    to = put_measured(out, to, signed_volume);
    put(out, to, b"\n")
}

// The first four vertices and the first two triangles.
pub fn put_first(out: &mut [u8], at: usize, v: &[f64], t: &[u32]) -> usize
    ensures { Puts (first_of v.now t.now) (line out.old at) (line out.new result) }
{
    let mut to = put(out, at, b"  first vertices");
    to = put_points(out, to, v, 4);
    to = put(out, to, b"\n  first triangles");
    to = put_triangles(out, to, t, 2);
    put(out, to, b"\n")
}

// The box in the record of a mesh, by the name of the mesh.
pub fn put_bounds(out: &mut [u8], at: usize, name: &[u8], bounds: BoundingBox) -> usize
    ensures { Puts (bounds_of name.now bounds) (line out.old at) (line out.new result) }
{
    let low = bounds.min;
    let high = bounds.max;
    let mut to = put(out, at, name);
    to = put(out, to, b"box in the record ");
    to = put_point(out, to, low);
    to = put(out, to, b" to ");
    to = put_point(out, to, high);
    put(out, to, b"\n")
}
