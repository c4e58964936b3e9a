// The points of a quad: which are vertices already, and numbers for the others.
ghost use Rattle.std.specs.Prelude.{◌≡◌, true, ◌&&◌, ◌<◌, ◌^◌};
ghost use Rattle.weld_vertex.specs.Points.{Clean};
ghost use Rattle.weld_hash.specs.Hash.{Distinct};
ghost use Rattle.weld.specs.Rep.{Ready};
ghost use Rattle.weld.specs.Welding.{held_by};
ghost use Rattle.weld_quad.specs.Quads.{is_vertex, Known, WeldsCorners, WeldsLast};

use math::Vec3;
use weld::{Four, FourNumbers, Welder, Welding};

// Whether p equals vertex m, and this is one of this part. If so p is finite, as all vertices are.
pub fn is_vertex(vertices: &[f64], w: &Welder, m: usize, p: Vec3) -> bool
    requires { Distinct vertices.now w.now.places w.now.base w.now.count }
    ensures { (result ≡ is_vertex w.now vertices.now p m) × (result ≡ true → Known w.now vertices.now p m) }
{
    weld_vertex::is_at(vertices, w.base, w.count, m, p)
}

// Whether the guesses at the numbers of a, b and d are right.
pub fn are_at(w: &Welding<'_>, p: Four, n: FourNumbers) -> bool
    requires { Distinct w.now.vertices.now w.now.st.places w.now.st.base w.now.st.count }
    ensures { (result ≡ (is_vertex w.now.st w.now.vertices.now p.a n.a && is_vertex w.now.st w.now.vertices.now p.b n.b && is_vertex w.now.st w.now.vertices.now p.d n.d))
        × (result ≡ true → Known w.now.st w.now.vertices.now p.a n.a × Known w.now.st w.now.vertices.now p.b n.b × Known w.now.st w.now.vertices.now p.d n.d) }
{
    is_vertex(w.vertices, &w.st, n.a, p.a)
        && is_vertex(w.vertices, &w.st, n.b, p.b)
        && is_vertex(w.vertices, &w.st, n.d, p.d)
}

// The two triangles of a quad of which a, b and d have the numbers of n: only c is tested for being finite, and looked up. The number of c in n
// is a guess. The answer is the number of c.
pub fn weld_last(w: &mut Welding<'_>, c: Vec3, n: FourNumbers) -> usize
    requires ready { Ready (held_by w.old) }
    requires finite_value { (w.old.st.finite ≡ true) × (w.old.st.room ≡ true) × (n.a < 2 ^ 32) × (n.b < 2 ^ 32) × (n.d < 2 ^ 32) }
    ensures { WeldsLast c n.a n.b n.d w.old w.new result }
{
    if !c.is_finite() {
        w.st.stop();
        return 0;
    }
    let nc = weld_search::weld_point(w, weld::plus_zero(c), n.c);
    weld_triangle::add_triangle(w, n.a, n.b, nc);
    weld_triangle::add_triangle(w, n.a, nc, n.d);
    nc
}

// The two triangles of a quad after `+ 0.0`: each of the four points gets its number.
pub fn weld_both(w: &mut Welding<'_>, p: Four, n: FourNumbers) -> FourNumbers
    requires ready { Ready (held_by w.old) }
    requires clean { Clean p.a × Clean p.b × Clean p.c × Clean p.d }
    ensures { WeldsCorners p w.old w.new result }
{
    let a = weld_search::weld_point(w, p.a, n.a);
    let b = weld_search::weld_point(w, p.b, n.b);
    let c = weld_search::weld_point(w, p.c, n.c);
    weld_triangle::add_triangle(w, a, b, c);
    let d = weld_search::weld_point(w, p.d, n.d);
    weld_triangle::add_triangle(w, a, c, d);
    FourNumbers { a, b, c, d }
}
