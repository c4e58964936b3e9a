// Segments of arcs, and roots.
ghost use Rattle.figures_lines.specs.Figures.{arc_of, case_name, root_of};
ghost use Rattle.slice_text.specs.Line.{line, Puts};

use figures_text::{put_count, put_float};
use root_case::RootCase;
use slice_text::put;

// The segments of an arc at 32 segments a turn, with its span by name.
pub fn put_arc(out: &mut [u8], at: usize, name: &[u8], segments: usize) -> usize
    ensures { Puts (arc_of name.now segments) (line out.old at) (line out.new result) }
{
    let mut to = put(out, at, b"32 segments, span ");
    to = put(out, to, name);
    to = put(out, to, b": ");
    to = put_count(out, to, segments);
    put(out, to, b"\n")
}

// The name of a case of the root.
fn put_case(out: &mut [u8], at: usize, case: RootCase) -> usize
    ensures { Puts (case_name case) (line out.old at) (line out.new result) }
{
    match case {
        RootCase::Zero => put(out, at, b"zero"),
        RootCase::NotFinite => put(out, at, b"not finite"),
        RootCase::Negative => put(out, at, b"negative"),
        RootCase::Subnormal => put(out, at, b"subnormal"),
        RootCase::EvenExponent => put(out, at, b"even exponent"),
        RootCase::OddExponent => put(out, at, b"odd exponent"),
    }
}

// A root, with its number by name and that number's case.
pub fn put_root(out: &mut [u8], at: usize, name: &[u8], case: RootCase, root: f64) -> usize
    ensures { Puts (root_of name.now case root) (line out.old at) (line out.new result) }
{
    let mut to = put(out, at, b"root of ");
    to = put(out, to, name);
    to = put(out, to, b", ");
    to = put_case(out, to, case);
    to = put(out, to, b": ");
    to = put_float(out, to, root);
    put(out, to, b"\n")
}
