// Counts and measures, or their refusals.
ghost use Rattle.figures_text.specs.Counts.{refusal_of, measured_of, counts_of};
ghost use Rattle.slice_text.specs.Line.{line, Puts};
ghost use Rattle.slice_text.specs.Numbers.{decimal_of};

use crate::floats::put_float_bits;
use mesh_check::TriMesh;
use refusal::Refusal;
use slice_text::{put, put_decimal};

pub fn put_count(out: &mut [u8], at: usize, n: usize) -> usize
    ensures { Puts (decimal_of n) (line out.old at) (line out.new result) }
{
    put_decimal(out, at, n as u64)
}

// A refusal by its number.
fn put_refusal(out: &mut [u8], at: usize, number: u32) -> usize
    ensures { Puts (refusal_of number) (line out.old at) (line out.new result) }
{
    let to = put(out, at, b"refusal ");
    put_decimal(out, to, number as u64)
}

// A measure by its bits, or its refusal.
pub fn put_measured(out: &mut [u8], at: usize, measured: Result<u64, Refusal>) -> usize
    ensures { Puts (measured_of measured) (line out.old at) (line out.new result) }
{
    match measured {
        Ok(bits) => put_float_bits(out, at, bits),
        Err(refusal) => put_refusal(out, at, u32::from(refusal)),
    }
}

// "N vertices, M triangles", or the refusal by its number, which is 0 where there is none.
// A number and no Result: the clause holds of every number, of those that no refusal has too, and may not say less.
pub fn put_counts(out: &mut [u8], at: usize, refused: u32, m: TriMesh) -> usize
    ensures { Puts (counts_of refused m) (line out.old at) (line out.new result) }
{
    if 0 < refused {
        return put_refusal(out, at, refused);
    }
    let after_count = put_count(out, at, m.vertices);
    let after_word = put(out, after_count, b" vertices, ");
    let to = put_count(out, after_word, m.triangles);
    put(out, to, b" triangles")
}
