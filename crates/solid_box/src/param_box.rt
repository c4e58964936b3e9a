// Soup::param_box of src/tessellate.rs with an angle as its middle axis. The angle's sines and cosines lie in a local table.
ghost use Rattle.std.specs.Prelude.{◌≤◌, ◌<◌};
ghost use Rattle.weld.specs.Rep.{Ready};
ghost use Rattle.weld.specs.Welding.{held_by, Welds};
ghost use Rattle.solid_box.specs.Box.{box_of};

use crate::{ParamBox, faces};
use surface::Turns;
use trig_spec::SinCos;
use weld::Welding;

// The box, with a table of POINTS entries and places for guesses at the numbers of as many points.
fn weld_sized<const POINTS: usize>(w: &mut Welding<'_>, x: &ParamBox)
    requires ready { Ready (held_by w.old) }
    requires n_bound { (x.now.n ≤ 1024) × (1 < POINTS) × (x.now.n < POINTS) × (POINTS ≤ 1025) }
    ensures { Welds (box_of x.now) w.old w.new }
{
    let mut table = [SinCos { sin: 0.0, cos: 0.0 }; POINTS];
    let mut numbers = [0usize; POINTS];
    let l = surface_box::line_of(x.lo, x.hi, x.n, x.turns, 1);
    surface::fill_entries(Turns::OnLine { l }, x.n, &mut table);
    faces::weld_faces(w, x, &table, &mut numbers);
}

// Soup::param_box with n parts on the middle axis, an angle that is periodic where turns says so, and 1 part on the others. Few parts
// have small arrays, so that clearing them takes little time.
pub fn weld_param_box(w: &mut Welding<'_>, x: &ParamBox)
    requires ready { Ready (held_by w.old) }
    requires n_bound { x.now.n ≤ 1024 }
    ensures { Welds (box_of x.now) w.old w.new }
{
    if x.n <= 64 {
        weld_sized::<65>(w, x);
    } else {
        weld_sized::<1025>(w, x);
    }
}
