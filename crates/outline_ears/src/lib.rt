// The searches of the ear clipper (src/tessellate.rs, triangulate_polygon) over the corners that remain. v is the corner list, two floats to a corner.
#![tactic(auto)]

ghost use Rattle.std.specs.Prelude.{◌≡◌, ◌+◌, ◌-◌, ◌%◌, ◌<◌, ◌≤◌};
ghost use Rattle.outline_ears.specs.Ears.{blocked as blocked·, triangle_at, is_ear, first_ear};
ghost use Rattle.outline_ears.specs.Inside.{Inside, idx_of};
ghost use Rattle.outline_ears.specs.Kinds.{kind_of, Kinds, first_flat_of};

use outline_triangle::Triangle;

// What the Rust's cross makes of a corner: an ear, blocked or not; a flat corner; or neither.
#[derive(Clone, Copy, PartialEq, Eq)]
pub enum CornerKind {
    Ear,
    Flat,
    Neither,
}

// The corners that remain: the Rust's idx is the first m numbers of the array idx, and the first m of kinds are the kinds of the corners there, which the
// searches read. Arrays with a count, as there is no heap.
#[derive(Clone, Copy)]
pub struct Remaining {
    pub idx: [u32; 512],
    pub kinds: [CornerKind; 512],
    pub m: usize,
}

// The kind of a corner by its cross. A NaN is not <= eps, so it counts as an ear's.
pub fn kind_of(eps: f64, cross: f64) -> CornerKind
    ensures { result ≡ kind_of eps cross }
{
    if cross <= eps {
        if ieee::abs(cross) <= eps {
            return CornerKind::Flat;
        }
        return CornerKind::Neither;
    }
    CornerKind::Ear
}

// The Rust's blocked: whether some corner that remains keeps t from being clipped.
fn blocked(v: &[f64], eps: f64, t: Triangle, left: &Remaining) -> bool
    requires { Inside v.now left.now.idx left.now.m }
    ensures { result ≡ blocked· v.now eps t (idx_of left.now) }
{
    for q in 0..left.m {
        if outline_triangle::blocks(v, eps, t, left.idx[q]) {
            return true;
        }
    }
    false
}

// The Rust's (k + m - 1) % m, with no division.
pub fn previous(k: usize, m: usize) -> usize
    requires { (k ≤ m) × (0 < m) × (m ≤ 512) }
    ensures { (result ≡ (k + m - 1) % m) × (result < m) }
{
    if k == 0 {
        return m - 1;
    }
    k - 1
}

// The Rust's (k + 1) % m, with no division.
pub fn next(k: usize, m: usize) -> usize
    requires { (k < m) × (m ≤ 512) }
    ensures { (result ≡ (k + 1) % m) × (result < m) }
{
    if k + 1 == m {
        return 0;
    }
    k + 1
}

// The corner at index k of idx and its neighbours there.
pub fn triangle_at(v: &[f64], left: &Remaining, k: usize) -> Triangle
    requires { (k < left.now.m) × Inside v.now left.now.idx left.now.m }
    ensures { result ≡ triangle_at v.now (idx_of left.now) k }
{
    let ip = left.idx[previous(k, left.m)];
    let ic = left.idx[k];
    let inx = left.idx[next(k, left.m)];
    Triangle {
        ip,
        ic,
        inx,
        a: outline_triangle::point_of(v, ip),
        b: outline_triangle::point_of(v, ic),
        c: outline_triangle::point_of(v, inx),
    }
}

// The first index whose corner is an ear that no other corner blocks.
// A loop of three lines, as in first_flat and blocked: find with a closure would need its clause to say what is tested.
pub fn first_ear(v: &[f64], eps: f64, left: &Remaining) -> Option<usize>
    requires { Inside v.now left.now.idx left.now.m × Kinds v.now eps left.now.idx left.now.kinds left.now.m }
    ensures { result ≡ first_ear v.now eps (idx_of left.now) }
{
    for k in 0..left.m {
        if is_ear(v, eps, left, k) {
            return Some(k);
        }
    }
    None
}

// Whether the corner at index k is an ear that no other corner blocks.
fn is_ear(v: &[f64], eps: f64, left: &Remaining, k: usize) -> bool
    requires { (k < left.now.m) × Inside v.now left.now.idx left.now.m × Kinds v.now eps left.now.idx left.now.kinds left.now.m }
    ensures { result ≡ is_ear v.now eps (idx_of left.now) k }
{
    left.kinds[k] == CornerKind::Ear && !blocked(v, eps, triangle_at(v, left, k), left)
}

// The first index whose corner is flat.
pub fn first_flat(left: &Remaining) -> Option<usize>
    requires { left.now.m ≤ 512 }
    ensures { result ≡ first_flat_of left.now.kinds left.now.m }
{
    for j in 0..left.m {
        if left.kinds[j] == CornerKind::Flat {
            return Some(j);
        }
    }
    None
}
