// cylinder of src/tessellate.rs, streamed into the welder.
ghost use Rattle.std.specs.Prelude.{◌≤◌};
ghost use Rattle.weld.specs.Rep.{Ready};
ghost use Rattle.weld.specs.Welding.{held_by, Welds};
ghost use Rattle.solid_spec.specs.Cylinder as Cylinder;

use ieee::TAU;
use math::Vec3;
use solid_box::ParamBox;
use surface_spec::Chart;
use weld::Welding;

// The box around an axis of the length len in the direction d.
fn weld_tube(w: &mut Welding<'_>, a: Vec3, d: Vec3, len: f64, r0: f64, r1: f64, segments: usize)
    requires ready { Ready (held_by w.old) }
    requires segments_bound { segments ≤ 1024 }
    ensures { Welds (Cylinder.tube a d len r0 r1 segments) w.old w.new }
{
    let n = segments.max(3);
    let inner = ieee::max(r0, 0.0);
    let e1 = surface_coords::frame1(d);
    let e2 = surface_coords::frame2(d);
    let lo = Vec3 {
        x: inner,
        y: 0.0,
        z: 0.0,
    };
    let hi = Vec3 {
        x: r1,
        y: TAU,
        z: len,
    };
    let chart = Chart::Around { a, d, e1, e2 };
    let x = ParamBox {
        lo,
        hi,
        n,
        turns: true,
        chart,
    };
    solid_box::weld_param_box(w, &x);
}

pub fn weld_cylinder(w: &mut Welding<'_>, a: Vec3, b: Vec3, r0: f64, r1: f64, segments: usize)
    requires ready { Ready (held_by w.old) }
    requires segments_bound { segments ≤ 1024 }
    ensures { Welds (Cylinder.cylinder a b r0 r1 segments) w.old w.new }
{
    let v = b - a;
    let len = math_norm::norm(v);
    if len == 0.0 {
        return;
    }
    if r1 <= 0.0 {
        return;
    }
    let d = v / len;
    weld_tube(w, a, d, len, r0, r1, segments);
}
