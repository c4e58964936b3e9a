// The cases Cylinder and CylindricalShell of tessellate in src/tessellate.rs.
ghost use Rattle.std.specs.Prelude.{◌≤◌};
ghost use Rattle.weld.specs.Rep.{Ready};
ghost use Rattle.weld.specs.Welding.{held_by, Welds};
ghost use Rattle.solid_spec.specs.Coords.{to_cartesian};
ghost use Rattle.solid_spec.specs.Cylinder as Cylinder;
ghost use Rattle.solid.specs.Soups.{tube_soup};

use math::Vec3;
use shape::Shape;
use weld::Welding;

// Welds a cylinder whose ends are given in the system of its shape.
fn weld_between(
    w: &mut Welding<'_>,
    start: Vec3,
    stop: Vec3,
    inner: f64,
    outer: f64,
    cylindrical: bool,
    segments: usize,
)
    requires ready { Ready (held_by w.old) }
    requires segments_bound { segments ≤ 1024 }
    ensures { Welds (Cylinder.cylinder (to_cartesian cylindrical start) (to_cartesian cylindrical stop) inner outer segments)
        w.old w.new }
{
    let a = surface_coords::to_cartesian(start, cylindrical);
    let b = surface_coords::to_cartesian(stop, cylindrical);
    solid_cylinder::weld_cylinder(w, a, b, inner, outer, segments);
}

// Welds a cylinder or a cylindrical shell, and nothing of another shape.
pub fn weld_tube(w: &mut Welding<'_>, shape: Shape, cylindrical: bool, segments: usize)
    requires ready { Ready (held_by w.old) }
    requires segments_bound { segments ≤ 1024 }
    ensures { Welds (tube_soup cylindrical shape segments) w.old w.new }
{
    match shape {
        Shape::Cylinder {
            start,
            stop,
            radius,
        } => weld_between(w, start, stop, 0.0, radius, cylindrical, segments),
        Shape::CylindricalShell {
            start,
            stop,
            radius,
            shell_width,
        } => {
            let half = shell_width / 2.0;
            weld_between(
                w,
                start,
                stop,
                radius - half,
                radius + half,
                cylindrical,
                segments,
            );
        }
        _ => {}
    }
}
