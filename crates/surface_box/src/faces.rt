// The axes of a parameter box, and which of its faces are there: Soup::param_box of src/tessellate.rs.
ghost use Rattle.std.specs.Prelude.{◌≡◌, false, cond};
ghost use Rattle.math.specs.Vec.{axis};
ghost use Rattle.surface_spec.specs.Faces.{three};
ghost use Rattle.surface_spec.specs.Surface.{line_of};
ghost use Rattle.surface_box.specs.Faces.{has_face};

use math::Vec3;
use surface_spec::Line;

// The parts of the axis k: n for the middle axis, 1 for the others.
fn cuts(n: usize, k: usize) -> usize
    ensures { result ≡ three 1 n 1 k }
{
    if k == 1 { n } else { 1 }
}

// Whether the axis k is periodic: only the middle axis can be.
fn wraps(turns: bool, k: usize) -> bool
    ensures { result ≡ three false turns false k }
{
    if k == 1 { turns } else { false }
}

// The axis k of a box whose middle axis has n parts.
pub fn line_of(lo: Vec3, hi: Vec3, n: usize, turns: bool, k: usize) -> Line
    ensures { result ≡ line_of lo hi (three 1 n 1) (three false turns false) k }
{
    Line {
        lo: lo.axis(k),
        hi: hi.axis(k),
        n: cuts(n, k),
        periodic: wraps(turns, k),
    }
}

// Where a face lies on the axis k.
pub fn end_of(lo: Vec3, hi: Vec3, k: usize, side: bool) -> f64
    ensures { result ≡ cond side (axis hi k) (axis lo k) }
{
    if side { hi.axis(k) } else { lo.axis(k) }
}

// Whether face f of six is there: 2 * k is the low one of the axis k, 2 * k + 1 the high one. A periodic axis has none, and the high
// one is there only where the bounds differ.
pub fn has_face(lo: Vec3, hi: Vec3, turns: bool, f: usize) -> bool
    ensures { result ≡ has_face lo hi (three false turns false) f }
{
    let k = f / 2;
    if wraps(turns, k) {
        return false;
    }
    let differ = hi.axis(k) != lo.axis(k);
    if f % 2 == 1 {
        return differ;
    }
    true
}
