// The cases of tessellate in src/tessellate.rs that are outlines.
ghost use Rattle.std.specs.Prelude.{◌≡◌, ◌≤◌, min, length};
ghost use Rattle.weld.specs.Rep.{Ready};
ghost use Rattle.weld.specs.Welding.{held_by, Welds};
ghost use Rattle.solid_spec.specs.Polygons as Polygons;
ghost use Rattle.solid.specs.Limits.{Listed};
ghost use Rattle.solid.specs.Soups.{outline_soup};

use shape::Shape;
use weld::Welding;

// The axis of a direction: 3 to 255 are taken as 2.
fn direction(n: u8) -> usize
    ensures { (result ≡ min n 2) × (result ≤ 2) }
{
    usize::from(n.min(2))
}

fn weld_rot_poly(
    w: &mut Welding<'_>,
    normal: u8,
    axis: u8,
    list: &[f64],
    start: f64,
    stop: f64,
    segments: usize,
)
    requires ready { Ready (held_by w.old) }
    requires segments_bound { (segments ≤ 1024) × (length list.now ≤ 1024) }
    ensures { Welds (Polygons.rot_poly_soup normal axis list.now start stop segments) w.old w.new }
{
    if normal < 3 && axis < 3 && normal != axis {
        solid_outline::weld_rotated(w, axis, normal, list, start, stop, segments);
    }
}

// Welds an outline, and nothing of another shape.
pub fn weld_outline(w: &mut Welding<'_>, shape: Shape, list: &[f64], segments: usize)
    requires ready { Ready (held_by w.old) }
    requires segments_bound { (segments ≤ 1024) × Listed shape list.now }
    ensures { Welds (outline_soup shape list.now segments) w.old w.new }
{
    match shape {
        Shape::Polygon {
            norm_dir,
            elevation,
        } => solid_outline::weld_extruded(w, direction(norm_dir), list, elevation, elevation),
        Shape::LinPoly {
            norm_dir,
            elevation,
            length,
        } => {
            let end = elevation + length;
            solid_outline::weld_extruded(
                w,
                direction(norm_dir),
                list,
                ieee::min(elevation, end),
                ieee::max(elevation, end),
            );
        }
        Shape::RotPoly {
            norm_dir,
            elevation: _,
            rot_axis_dir,
            start_angle,
            stop_angle,
        } => weld_rot_poly(
            w,
            norm_dir,
            rot_axis_dir,
            list,
            start_angle,
            stop_angle,
            segments,
        ),
        _ => {}
    }
}
