// The clipper: one ear, one flat corner or the rest at a pass, until three corners remain or none.
ghost use Rattle.std.specs.Prelude.{◌≡◌, [], ◌∷◌, ◌+◌, ◌*◌, ◌/◌, ◌<◌, ◌≤◌, length};
ghost use Rattle.outline_ears.specs.Inside.{Inside, idx_of};
ghost use Rattle.outline_ears.specs.Kinds.{Kinds};
ghost use Rattle.outline_triangulate.specs.Triangulate.{finished, triangulate_polygon};
ghost use Rattle.outline_triangulate.specs.Slices.{Room, none, Passing, Passes, CutAs, clipping_of};

use crate::{Cut, Trimmed, lists};
use outline_ears::Remaining;

// The counts at the start.
const NONE: Cut = Cut {
    triangles: 0,
    removed: 0,
};

// One pass over the corners that remain, with the counts so far: it clips the first ear that nothing blocks, failing that drops the first flat corner, failing
// that fans what remains, and nothing does then. It returns the new counts.
fn pass(v: &[f64], eps: f64, left: &mut Remaining, cut: Cut, out: &mut [u32]) -> Cut
    requires { (3 < left.old.m) × Inside v.now left.old.idx left.old.m × Kinds v.now eps left.old.idx left.old.kinds left.old.m × Room left.old.m cut out.old }
    ensures { Passing v.now eps left.old cut out.old left.new result out.new }
{
    let t = cut.triangles;
    let removed = cut.removed;
    if let Some(k) = outline_ears::first_ear(v, eps, left) {
        let ear = outline_ears::triangle_at(v, left, k);
        lists::put(out, t, ear.ip, ear.ic, ear.inx);
        outline_remaining::remove(v, eps, left, k);
        return Cut {
            triangles: t + 1,
            removed: removed + 1,
        };
    }
    if let Some(k) = outline_ears::first_flat(left) {
        outline_remaining::remove(v, eps, left, k);
        return Cut {
            triangles: t,
            removed: removed + 1,
        };
    }
    let triangles = lists::fan(left, t, out);
    left.m = 0;
    Cut { triangles, removed }
}

// The corners i, j and k are the last triangle where their cross is above eps; a NaN is not.
fn last(v: &[f64], eps: f64, i: u32, j: u32, k: u32, cut: Cut, out: &mut [u32]) -> Cut
    requires { (2 * i + 1 < length v.now) × (2 * j + 1 < length v.now) × (2 * k + 1 < length v.now) × Room 3 cut out.old }
    ensures { (cut.triangles ≤ result.triangles) × CutAs (finished v.now eps (clipping_of (i ∷ j ∷ k ∷ []) cut out.old))
        result out.old out.new }
{
    let given = cut.triangles;
    if outline_triangle::cross(
        outline_triangle::point_of(v, i),
        outline_triangle::point_of(v, j),
        outline_triangle::point_of(v, k),
    ) > eps
    {
        lists::put(out, given, i, j, k);
        return Cut {
            triangles: given + 1,
            removed: cut.removed,
        };
    }
    cut
}

// Three corners that remain may be a triangle. Fewer give none.
fn finish(v: &[f64], eps: f64, left: &Remaining, cut: Cut, out: &mut [u32]) -> Cut
    requires { (left.now.m ≤ 3) × Inside v.now left.now.idx left.now.m × Room left.now.m cut out.old }
    ensures { (cut.triangles ≤ result.triangles) × CutAs (finished v.now eps (clipping_of (idx_of left.now) cut out.old))
        result out.old out.new }
{
    if left.m == 3 {
        return last(v, eps, left.idx[0], left.idx[1], left.idx[2], cut, out);
    }
    cut
}

// The passes over the corners that remain, until three remain or none; what is left then, and the counts. The crosses are worked out once, and again for the
// two corners beside one that goes.
fn clip(v: &[f64], eps: f64, mut left: Remaining, out: &mut [u32]) -> Trimmed
    requires { (1 ≤ left.m) × Inside v.now left.idx left.m × Room left.m none out.old × (length left.kinds ≡ 512) }
    ensures { Passes v.now eps left out.old result.left result.cut out.new }
{
    let mut cut = NONE;
    outline_remaining::all_kinds(v, eps, &mut left);
    // A `while`: each pass leaves one corner fewer or none, so no range counts the passes.
    while 3 < left.m {
        cut = pass(v, eps, &mut left, cut, out);
    }
    Trimmed { left, cut }
}

// The Rust's triangulate_polygon, an inner function: clip_outline and the solids refuse more than 512 corners before they call it. The triangles are at the
// start of out, which has a place for each that the corners can have; what comes after them is left alone.
pub fn triangulate_polygon(v: &[f64], out: &mut [u32]) -> Cut
    requires { (length v.now ≤ 1024) × (3 * (length v.now / 2) ≤ length out.old) }
    ensures { CutAs (triangulate_polygon v.now) result out.old out.new × (3 * result.triangles ≤ length out.new) }
{
    let n = v.len() / 2;
    if n < 3 {
        return NONE;
    }
    let eps = outline_triangle::tolerance(v);
    if n == 3 {
        return last(v, eps, 0, 1, 2, NONE, out);
    }
    let left = outline_remaining::counting(n);
    let trimmed = clip(v, eps, left, out);
    finish(v, eps, &trimmed.left, trimmed.cut, out)
}
