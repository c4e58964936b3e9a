// Lines of the program `figures` on outlines, cleaned and clipped, put into a lent slice of bytes from place at on, as far as they fit. Each function
// answers the place after its text.
#![tactic(auto)]

ghost use Rattle.figures_outlines.specs.Outlines.{corners_of, cleaned_of, removed_of, triangles_of, clipped_of};
ghost use Rattle.slice_text.specs.Line.{line, Puts};

use figures_points::{put_corners, put_triangles};
use figures_text::put_count;
use slice_text::put;

// The corners of an outline, two floats each.
fn put_outline(out: &mut [u8], at: usize, v: &[f64]) -> usize
    ensures { Puts (corners_of v.now) (line out.old at) (line out.new result) }
{
    let to = put(out, at, b"corners");
    put_corners(out, to, v, v.len() / 2)
}

// An outline, and the n corners that cleaning leaves of it.
pub fn put_cleaned(out: &mut [u8], at: usize, v: &[f64], cleaned: &[f64], n: usize) -> usize
    ensures { Puts (cleaned_of v.now cleaned.now n) (line out.old at) (line out.new result) }
{
    let mut to = put_outline(out, at, v);
    to = put(out, to, b" clean to ");
    to = put_count(out, to, n);
    to = put(out, to, b":");
    to = put_corners(out, to, cleaned, n);
    put(out, to, b"\n")
}

// How many triangles a clipping gave and how many corners it removed.
fn put_removed(out: &mut [u8], at: usize, n: usize, removed: usize) -> usize
    ensures { Puts (removed_of n removed) (line out.old at) (line out.new result) }
{
    let mut to = put(out, at, b": ");
    to = put_count(out, to, n);
    to = put(out, to, b" triangles, ");
    to = put_count(out, to, removed);
    put(out, to, b" removed")
}

// The triangles of a clipping after a colon, and nothing where there are none; then the end of the line.
fn put_given(out: &mut [u8], at: usize, t: &[u32], n: usize) -> usize
    ensures { Puts (triangles_of t.now n) (line out.old at) (line out.new result) }
{
    if n == 0 {
        return put(out, at, b"\n");
    }
    let mut to = put(out, at, b":");
    to = put_triangles(out, to, t, n);
    put(out, to, b"\n")
}

// An outline, and the n triangles that clipping gives of it.
pub fn put_clipped(
    out: &mut [u8],
    at: usize,
    v: &[f64],
    t: &[u32],
    n: usize,
    removed: usize,
) -> usize
    ensures { Puts (clipped_of v.now t.now n removed) (line out.old at) (line out.new result) }
{
    let mut to = put_outline(out, at, v);
    to = put_removed(out, to, n, removed);
    put_given(out, to, t, n)
}
