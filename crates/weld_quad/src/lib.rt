// Soup::quad of src/tessellate.rs: a quad is two triangles, welded together, so that each of its points is looked up once at most.
#![tactic(auto)]

ghost use Rattle.std.specs.Prelude.{◌≡◌, ◌&&◌};
ghost use Rattle.mesh_balance_spec.specs.Grid.{quad};
ghost use Rattle.math.specs.Vec.{v_finite};
ghost use Rattle.weld.specs.Rep.{Ready};
ghost use Rattle.weld.specs.Welding.{held_by};
ghost use Rattle.weld_quad.specs.Quads.{WeldsQuad};

mod corners;

pub use corners::is_vertex;
use weld::{Four, FourNumbers, Welding};

// Soup::quad: the triangles a, b, c and a, c, d of p. The numbers n are guesses at those of its points, which are the answer: callers hand
// them on as guesses, or as numbers that are known. In most quads of a grid all points but c were seen before: a point that equals a stored
// vertex is finite.
pub fn weld_quad(w: &mut Welding<'_>, p: Four, n: FourNumbers) -> FourNumbers
    requires { Ready (held_by w.old) }
    ensures { WeldsQuad (quad p.a p.b p.c p.d) p w.old w.new result }
{
    if !w.st.finite {
        return n;
    }
    if w.st.room && corners::are_at(w, p, n) {
        let c = corners::weld_last(w, p.c, n);
        return FourNumbers {
            a: n.a,
            b: n.b,
            c,
            d: n.d,
        };
    }
    if !are_finite(p) {
        w.st.stop();
        return n;
    }
    let q = Four {
        a: weld::plus_zero(p.a),
        b: weld::plus_zero(p.b),
        c: weld::plus_zero(p.c),
        d: weld::plus_zero(p.d),
    };
    corners::weld_both(w, q, n)
}

// Whether four points are finite.
fn are_finite(p: Four) -> bool
    ensures { result ≡ (v_finite p.a && v_finite p.b && v_finite p.c && v_finite p.d) }
{
    p.a.is_finite() && p.b.is_finite() && p.c.is_finite() && p.d.is_finite()
}
