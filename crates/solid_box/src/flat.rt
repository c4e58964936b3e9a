// Soup::param_box of src/tessellate.rs with one part on each axis and no map: each face is one quad.
ghost use Rattle.std.specs.Prelude.{false, ◌<◌};
ghost use Rattle.weld.specs.Rep.{Ready};
ghost use Rattle.weld.specs.Welding.{held_by, Welds};
ghost use Rattle.surface_spec.specs.declared.Chart.TheVariants.{Cartesian};
ghost use Rattle.surface_spec.specs.Faces.{three};
ghost use Rattle.surface_spec.specs.Surface.{mapped};
ghost use Rattle.solid_box.specs.Box.{middle_parted, face_of};

use math::Vec3;
use weld::Welding;

// Face f, if it is there.
fn weld_face(w: &mut Welding<'_>, lo: Vec3, hi: Vec3, f: usize)
    requires ready { Ready (held_by w.old) }
    requires f_bound { f < 6 }
    ensures { Welds (face_of lo hi (three 1 1 1) (three false false false) (mapped Cartesian) f) w.old w.new }
{
    if surface_box::has_face(lo, hi, false, f) {
        let p = surface_quad::face(lo, hi, f / 2, f % 2 == 1);
        let n = surface_quad::guesses(w.st.base, f);
        weld_quad::weld_quad(w, p, n);
    }
}

// Soup::param_box with one part on each axis and no map.
pub fn weld_flat_box(w: &mut Welding<'_>, lo: Vec3, hi: Vec3)
    requires { Ready (held_by w.old) }
    ensures { Welds (middle_parted lo hi 1 false (mapped Cartesian)) w.old w.new }
{
    for f in 0..6 {
        weld_face(w, lo, hi, f);
    }
}
