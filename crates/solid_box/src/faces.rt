// Soup::param_box of src/tessellate.rs, face by face, streamed into the welder.
ghost use Rattle.std.specs.Prelude.{◌<◌, length};
ghost use Rattle.weld.specs.Rep.{Ready};
ghost use Rattle.weld.specs.Welding.{held_by, Welds};
ghost use Rattle.solid_box.specs.Box.{box_of, face_of_box, BoxWithin};

use crate::ParamBox;
use solid_grid::Sheet;
use surface_spec::Surface;
use trig_spec::SinCos;
use weld::Welding;

// Face f, if it is there.
fn weld_face(w: &mut Welding<'_>, x: &ParamBox, table: &[SinCos], numbers: &mut [usize], f: usize)
    requires ready { Ready (held_by w.old) }
    requires f_bound { (f < 6) × BoxWithin x.now table.now (length numbers.old) }
    ensures { Welds (face_of_box x.now f) w.old w.new }
{
    if !surface_box::has_face(x.lo, x.hi, x.turns, f) {
        return;
    }
    let k = f / 2;
    let side = f % 2 == 1;
    let u = surface_box::line_of(x.lo, x.hi, x.n, x.turns, (k + 1) % 3);
    let v = surface_box::line_of(x.lo, x.hi, x.n, x.turns, (k + 2) % 3);
    let val = surface_box::end_of(x.lo, x.hi, k, side);
    let s = Surface::Face {
        chart: x.chart,
        k,
        val,
        u,
        v,
    };
    let sheet = Sheet {
        s,
        corners: &[],
        rows: table,
        cols: table,
    };
    solid_grid::weld_grid(w, &sheet, numbers, u.n, v.n, !side);
}

// The six faces. `table` has the sines and cosines of the middle axis; `numbers` is for guesses, as in weld_grid.
pub fn weld_faces(w: &mut Welding<'_>, x: &ParamBox, table: &[SinCos], numbers: &mut [usize])
    requires ready { Ready (held_by w.old) }
    requires box_within { BoxWithin x.now table.now (length numbers.old) }
    ensures { Welds (box_of x.now) w.old w.new }
{
    for f in 0..6 {
        weld_face(w, x, table, numbers, f);
    }
}
