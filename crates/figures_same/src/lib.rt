// Whether a slice begins with the content of another, and whether a point is among the vertices of a mesh.
#![tactic(auto)]

ghost use Rattle.std.specs.Prelude.{◌≡◌, eqb};
ghost use Rattle.std.specs.Float.Ieee.{eq};
ghost use Rattle.figures_same.specs.Begins.{begins};
ghost use Rattle.figures_same.specs.Vertices.{has_vertex};

use math::Vec3;

// Floats are compared as numbers: the two zeros are equal, and NaN equals nothing.
// A loop and no starts_with, here and in `numbers`, for the edits that change one comparison of it.
pub fn floats(v: &[f64], front: &[f64]) -> bool
    ensures { result ≡ begins eq v.now front.now }
{
    if v.len() < front.len() {
        return false;
    }
    for i in 0..front.len() {
        if v[i] != front[i] {
            return false;
        }
    }
    true
}

pub fn numbers(t: &[u32], front: &[u32]) -> bool
    ensures { result ≡ begins eqb t.now front.now }
{
    if t.len() < front.len() {
        return false;
    }
    for k in 0..front.len() {
        if t[k] != front[k] {
            return false;
        }
    }
    true
}

// Whether one of the first count vertices of v, which has three floats a vertex, is p. A vertex that v lacks is no point.
pub fn has_vertex(v: &[f64], count: usize, p: Vec3) -> bool
    ensures { result ≡ has_vertex v.now count p }
{
    for m in 0..count {
        if weld_vertex::is_at(v, 0, v.len() / 3, m, p) {
            return true;
        }
    }
    false
}
