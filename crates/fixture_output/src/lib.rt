// The planner's output while the solids of a file are drawn, and at its end. Until then the vertices stand at the front, behind eight bytes for the counts,
// and the triangles' numbers at the back, the first number last: how many vertices come is not known before the last solid.
#![tactic(auto)]

ghost use Rattle.std.specs.Prelude.{◌≡◌, length, replicate};
ghost use Rattle.refusal.specs.Answer.{answer_of};
ghost use Rattle.fixture_output.specs.Laid.{Adds, Added, Finishes, Finished};

use refusal::Refusal;

// Zeros throughout.
pub fn clear(out: &mut [u8])
    ensures { out.new ≡ replicate (length out.old) 0 }
{
    slice::clear_from(out, 0, 0);
}

// A mesh joins the one of so many vertices and triangles that the output holds, where both have room.
pub fn add(
    out: &mut [u8],
    vertex_count: usize,
    triangle_count: usize,
    vertices: &[f64],
    triangles: &[u32],
)
    requires { Adds (length out.old) vertex_count triangle_count vertices.now triangles.now }
    ensures { Added out.old vertex_count triangle_count vertices.now triangles.now out.new }
{
    let n = out.len() - out.len() % 4;
    let at = 8 + 24 * vertex_count;
    if n < at + 8 * vertices.len() + 12 * triangle_count + 4 * triangles.len() {
        return;
    }
    slice_byte_lists::put_floats(vertices, &mut out[at..]);
    let end = n - 12 * triangle_count;
    slice_byte_turn::put_words_back(triangles, vertex_count as u32, &mut out[..end]);
}

// The counts, and the triangles to their place behind the vertices; or refusal 7 and zeros.
pub fn finish(out: &mut [u8], vertex_count: usize, triangle_count: usize) -> Result<(), Refusal>
    requires { Finishes out.old vertex_count triangle_count }
    ensures { Finished out.old vertex_count triangle_count (answer_of result) out.new }
{
    let at = 8 + 24 * vertex_count;
    if out.len() < at + 12 * triangle_count {
        clear(out);
        return Err(Refusal::NoRoom);
    }
    let end = out.len() - out.len() % 4;
    slice_byte_turn::turn_words(&mut out[at..end], 3 * triangle_count);
    slice_bytes::put_word(out, 0, vertex_count as u32);
    slice_bytes::put_word(out, 4, triangle_count as u32);
    Ok(())
}
