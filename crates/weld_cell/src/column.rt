// A cell that follows another in a column.
ghost use Rattle.std.specs.Prelude.{◌≡◌, true, ◌<◌, ◌^◌};
ghost use Rattle.mesh_balance_spec.specs.Grid.{quad_turned};
ghost use Rattle.weld_vertex.specs.Points.{Clean};
ghost use Rattle.weld.specs.Rep.{Ready};
ghost use Rattle.weld.specs.Welding.{held_by};
ghost use Rattle.weld_quad.specs.Quads.{Known, WeldsQuad};
ghost use Rattle.weld_cell.specs.Cell.{WeldsSide, WeldsTurnedSide};

use math::Vec3;
use weld::{Four, FourNumbers, Welding};

// One cell: the quad p, or where flip says so with b and d exchanged. Where `known` is true, the numbers of a and d are those of the points, as
// after the cell before in a column, and only b and c are tested for being finite, and looked up. The other numbers are guesses.
pub fn weld_in_column(
    w: &mut Welding<'_>,
    flip: bool,
    known: bool,
    p: Four,
    n: FourNumbers,
) -> FourNumbers
    requires ready { Ready (held_by w.old) }
    requires known { known ≡ true → Known w.old.st w.old.vertices.now p.a n.a × Known w.old.st w.old.vertices.now p.d n.d }
    ensures { WeldsQuad (quad_turned flip p.a p.b p.c p.d) p w.old w.new result }
{
    if known && w.st.finite && w.st.room && p.b.is_finite() && p.c.is_finite() {
        let b = weld::plus_zero(p.b);
        let c = weld::plus_zero(p.c);
        if flip {
            return weld_turned_side(w, b, c, n);
        }
        return weld_side(w, b, c, n);
    }
    crate::weld_cell(w, flip, p, n)
}

// The triangles a, b, c and a, c, d where n has the numbers of a and d, and b and c came out of `+ 0.0`.
fn weld_side(w: &mut Welding<'_>, b: Vec3, c: Vec3, n: FourNumbers) -> FourNumbers
    requires ready { Ready (held_by w.old) }
    requires clean { Clean b × Clean c × (n.a < 2 ^ 32) × (n.d < 2 ^ 32) }
    ensures { WeldsSide b c n.a n.d w.old w.new result }
{
    let nb = weld_search::weld_point(w, b, n.b);
    let nc = weld_search::weld_point(w, c, n.c);
    weld_triangle::add_triangle(w, n.a, nb, nc);
    weld_triangle::add_triangle(w, n.a, nc, n.d);
    FourNumbers {
        a: n.a,
        b: nb,
        c: nc,
        d: n.d,
    }
}

// The same for the triangles a, d, c and a, c, b: c comes before b.
// A function of its own: the order of the look-ups decides which numbers new points get.
fn weld_turned_side(w: &mut Welding<'_>, b: Vec3, c: Vec3, n: FourNumbers) -> FourNumbers
    requires ready { Ready (held_by w.old) }
    requires clean { Clean b × Clean c × (n.a < 2 ^ 32) × (n.d < 2 ^ 32) }
    ensures { WeldsTurnedSide b c n.a n.d w.old w.new result }
{
    let nc = weld_search::weld_point(w, c, n.c);
    weld_triangle::add_triangle(w, n.a, n.d, nc);
    let nb = weld_search::weld_point(w, b, n.b);
    weld_triangle::add_triangle(w, n.a, nc, nb);
    FourNumbers {
        a: n.a,
        b: nb,
        c: nc,
        d: n.d,
    }
}
