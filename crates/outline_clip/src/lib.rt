// An outline clipped by itself: the refusals, and what the lent triangles hold at the end (docs/SCOPE.md, "Refusals").
#![tactic(auto)]

ghost use Rattle.std.specs.Prelude.{◌≡◌, ◌++◌, ◌≤◌, length, take, drop};
ghost use Rattle.outline_clip.specs.Clip.{clip_outline, cut_answered, outcome_of};

use outline_triangulate::Cut;
use refusal::Refusal;

// The first n numbers of from, at the start of out.
// A line of std under a name, for its clause: in clip_outline the same line would leave that clause to be proved there.
fn copy(out: &mut [u32], from: &[u32], n: usize)
    requires { (n ≤ length out.old) × (n ≤ length from.now) }
    ensures { out.new ≡ take n from.now ++ drop n out.old }
{
    out[..n].copy_from_slice(&from[..n]);
}

// An outline by itself, its corners as given: its triangles, then zeros; or a refusal, and zeros.
pub fn clip_outline(list: &[f64], triangles: &mut [u32]) -> Result<Cut, Refusal>
    ensures { outcome_of result triangles.new ≡ clip_outline list.now (length triangles.old) }
{
    slice::clear_from(triangles, 0, 0);
    if 1024 < list.len() {
        return Err(Refusal::BadList);
    }
    if list.len() % 2 == 1 {
        return Err(Refusal::BadList);
    }
    if !slice::all_finite(list, list.len()) {
        return Err(Refusal::NotFinite);
    }
    let mut work = [0u32; 1536];
    let cut = outline_triangulate::triangulate_polygon(list, &mut work);
    if triangles.len() / 3 < cut.triangles {
        return Err(Refusal::NoRoom);
    }
    copy(triangles, &work, 3 * cut.triangles);
    Ok(cut)
}

// The counts of a clipping, 0 where it is refused.
pub fn cut_or_zeros(clipped: Result<Cut, Refusal>) -> Cut
    ensures { result ≡ cut_answered clipped }
{
    clipped.unwrap_or(Cut {
        triangles: 0,
        removed: 0,
    })
}
