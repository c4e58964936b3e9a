// The corners that remain in the ear clipper (src/tessellate.rs, triangulate_polygon): at first, and after one goes. v is the corner list, two floats to a
// corner.
#![tactic(auto)]

ghost use Rattle.std.specs.Prelude.{◌≡◌, ◌-◌, ◌<◌, ◌≤◌, length};
ghost use Rattle.outline_ears.specs.Ears.{counting as counting·};
ghost use Rattle.outline_ears.specs.Inside.{Inside, idx_of};
ghost use Rattle.outline_ears.specs.Kinds.{kind_at, Kinds};
ghost use Rattle.outline_remaining.specs.Removed.{anew, SameCorners, Removed};

use outline_ears::{CornerKind, Remaining};

// The Rust's (0..n).collect(): the numbers 0 to n - 1. Their kinds are still to be found.
pub fn counting(n: usize) -> Remaining
    requires { n ≤ 512 }
    ensures { (result.m ≡ n) × (length result.idx ≡ 512) × (idx_of result ≡ counting· 0 n) × (length result.kinds ≡ 512) }
{
    let mut idx = [0; 512];
    for i in 0..n {
        idx[i] = i as u32;
    }
    Remaining {
        idx,
        kinds: [CornerKind::Neither; 512],
        m: n,
    }
}

// The kind of the corner at index k, by the Rust's cross(a, b, c) there.
fn kind_at(v: &[f64], eps: f64, left: &Remaining, k: usize) -> CornerKind
    requires { (k < left.now.m) × Inside v.now left.now.idx left.now.m }
    ensures { result ≡ kind_at v.now eps (idx_of left.now) k }
{
    let t = outline_ears::triangle_at(v, left, k);
    outline_ears::kind_of(eps, outline_triangle::cross(t.a, t.b, t.c))
}

// The kinds of all corners.
pub fn all_kinds(v: &[f64], eps: f64, left: &mut Remaining)
    requires { Inside v.now left.old.idx left.old.m × (length left.old.kinds ≡ 512) }
    ensures { SameCorners left.old left.new × Kinds v.now eps left.new.idx left.new.kinds left.new.m }
{
    for k in 0..left.m {
        left.kinds[k] = kind_at(v, eps, left, k);
    }
}

// The corner at index k went: the kinds of the two that were beside it are made anew.
fn renew(v: &[f64], eps: f64, left: &mut Remaining, k: usize)
    requires { (k ≤ left.old.m) × (0 < left.old.m) × Inside v.now left.old.idx left.old.m }
    ensures { SameCorners left.old left.new × (left.new.kinds ≡ anew v.now eps (idx_of left.old) k left.old.kinds) }
{
    let before = outline_ears::previous(k, left.m);
    left.kinds[before] = kind_at(v, eps, left, before);
    let after = outline_ears::next(before, left.m);
    left.kinds[after] = kind_at(v, eps, left, after);
}

// The Rust's idx.remove(k), in place. The kinds move down with the numbers, and those of the two corners beside the one that goes are made anew.
pub fn remove(v: &[f64], eps: f64, left: &mut Remaining, k: usize)
    requires { (1 < left.old.m) × (k < left.old.m) × Inside v.now left.old.idx left.old.m × Kinds v.now eps left.old.idx left.old.kinds left.old.m }
    ensures { Removed v.now eps k left.old left.new }
{
    let m = left.m;
    left.idx.copy_within(k + 1..m, k);
    left.kinds.copy_within(k + 1..m, k);
    left.m = m - 1;
    renew(v, eps, left, k);
}
