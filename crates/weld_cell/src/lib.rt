// One cell of Soup::grid of src/tessellate.rs: a quad, turned where flip says so. Two cells that follow each other share two points, so
// the numbers of these are known in the second.
#![tactic(auto)]

ghost use Rattle.std.specs.Prelude.{◌≡◌, true, cond};
ghost use Rattle.weld.specs.Rep.{Linked, Ready};
ghost use Rattle.weld.specs.Welding.{held_by};
ghost use Rattle.weld_quad.specs.Quads.{is_vertex, Known, WeldsQuad};
ghost use Rattle.mesh_balance_spec.specs.Grid.{quad_turned};

mod column;

pub use column::weld_in_column;
use math::Vec3;
use weld::{Four, FourNumbers, Welding};

// One cell: the quad p, or where flip says so with b and d exchanged. The numbers n are guesses at those of its points.
fn weld_cell(w: &mut Welding<'_>, flip: bool, p: Four, n: FourNumbers) -> FourNumbers
    requires { Ready (held_by w.old) }
    ensures { WeldsQuad (quad_turned flip p.a p.b p.c p.d) p w.old w.new result }
{
    if flip {
        let q = Four {
            a: p.a,
            b: p.d,
            c: p.c,
            d: p.b,
        };
        let m = FourNumbers {
            a: n.a,
            b: n.d,
            c: n.c,
            d: n.b,
        };
        let r = weld_quad::weld_quad(w, q, m);
        return FourNumbers {
            a: r.a,
            b: r.d,
            c: r.c,
            d: r.b,
        };
    }
    weld_quad::weld_quad(w, p, n)
}

// The same as `weld_cell`. Where `known` is true, the numbers of a and b are those of the points, as after the cell before in a row. If the guess
// at d is right as well, only c is tested for being finite, and looked up.
pub fn weld_in_row(
    w: &mut Welding<'_>,
    flip: bool,
    known: bool,
    p: Four,
    n: FourNumbers,
) -> FourNumbers
    requires ready { Ready (held_by w.old) }
    requires known { known ≡ true → Known w.old.st w.old.vertices.now p.a n.a × Known w.old.st w.old.vertices.now p.b n.b }
    ensures { WeldsQuad (quad_turned flip p.a p.b p.c p.d) p w.old w.new result }
{
    if known && w.st.finite && w.st.room && is_vertex(w, n.d, p.d) && p.c.is_finite() {
        let second = pick(flip, n.d, n.b);
        let fourth = pick(flip, n.b, n.d);
        let c = weld_search::weld_point(w, weld::plus_zero(p.c), n.c);
        weld_triangle::add_triangle(w, n.a, second, c);
        weld_triangle::add_triangle(w, n.a, c, fourth);
        return FourNumbers {
            a: n.a,
            b: n.b,
            c,
            d: n.d,
        };
    }
    weld_cell(w, flip, p, n)
}

// Whether p equals vertex m, and this is one of this part. A function of its own, since `weld_quad::is_vertex` reads two fields of w, which
// weld_in_row may write.
fn is_vertex(w: &Welding<'_>, m: usize, p: Vec3) -> bool
    requires { Linked w.now.st w.now.vertices.now w.now.work.now }
    ensures { (result ≡ is_vertex w.now.st w.now.vertices.now p m) × (result ≡ true → Known w.now.st w.now.vertices.now p m) }
{
    weld_quad::is_vertex(w.vertices, &w.st, m, p)
}

// The number x where flip says so, or else y.
fn pick(flip: bool, x: usize, y: usize) -> usize
    ensures { result ≡ cond flip x y }
{
    if flip { x } else { y }
}
