// One turn of the loop of from_soup of src/tessellate.rs: the three points of a triangle get numbers, and the triangle stays where
// they differ.
#![tactic(auto)]

ghost use Rattle.std.specs.Prelude.{[], ◌∷◌};
ghost use Rattle.weld.specs.Rep.{Ready};
ghost use Rattle.weld.specs.Welding.{held_by, Welds};

mod steps;

use math::Vec3;
pub use steps::add_triangle;
use weld::Welding;

// Welds a triangle. A point that is not finite stops the welder.
pub fn weld_triangle(w: &mut Welding<'_>, a: Vec3, b: Vec3, c: Vec3)
    requires { Ready (held_by w.old) }
    ensures { Welds ((a, b, c) ∷ []) w.old w.new }
{
    if !w.st.finite {
        return;
    }
    if a.is_finite() && b.is_finite() && c.is_finite() {
        steps::weld_points(
            w,
            weld::plus_zero(a),
            weld::plus_zero(b),
            weld::plus_zero(c),
        );
    } else {
        w.st.stop();
    }
}
