// box_shape of src/tessellate.rs, in either coordinate system, streamed into the welder.
ghost use Rattle.std.specs.Prelude.{◌≤◌};
ghost use Rattle.weld.specs.Rep.{Ready};
ghost use Rattle.weld.specs.Welding.{held_by, Welds};
ghost use Rattle.solid_spec.specs.Boxes as Boxes;

use crate::{ParamBox, flat, param_box};
use math::Vec3;
use surface_spec::Chart;
use weld::Welding;

pub fn weld_box_shape(w: &mut Welding<'_>, a: Vec3, b: Vec3, cylindrical: bool, segments: usize)
    requires ready { Ready (held_by w.old) }
    requires segments_bound { segments ≤ 1024 }
    ensures { Welds (Boxes.box_shape a b cylindrical segments) w.old w.new }
{
    let lo = a.min(b);
    let hi = a.max(b);
    if !cylindrical {
        flat::weld_flat_box(w, lo, hi);
        return;
    }
    let turns = shape_arc::is_full(hi.y - lo.y);
    let high = surface_box::turned_to(turns, lo, hi);
    let n = shape_arc::arc_segments(segments, high.y - lo.y);
    let chart = Chart::Cylindrical;
    let x = ParamBox {
        lo,
        hi: high,
        n,
        turns,
        chart,
    };
    param_box::weld_param_box(w, &x);
}
