// The cases Box, Sphere and SphericalShell of tessellate in src/tessellate.rs.
ghost use Rattle.weld.specs.Rep.{Ready};
ghost use Rattle.weld.specs.Welding.{held_by, Welds};
ghost use Rattle.solid.specs.Limits.{FewSegments};
ghost use Rattle.solid.specs.Soups.{solid_soup};

use shape::{Shape, TessellationOptions};
use weld::Welding;

// Welds a box, a sphere or a spherical shell, and nothing of another shape.
pub fn weld_solid(
    w: &mut Welding<'_>,
    shape: Shape,
    cylindrical: bool,
    options: TessellationOptions,
)
    requires ready { Ready (held_by w.old) }
    requires few_segments { FewSegments options }
    ensures { Welds (solid_soup cylindrical shape options) w.old w.new }
{
    match shape {
        Shape::Box { start, stop } => {
            solid_box::weld_box_shape(w, start, stop, cylindrical, options.segments);
        }
        Shape::Sphere { center, radius } => {
            let c = surface_coords::to_cartesian(center, cylindrical);
            solid_sphere::weld_sphere(w, c, radius, options, false);
        }
        Shape::SphericalShell {
            center,
            radius,
            shell_width,
        } => solid_sphere::weld_spherical_shell(
            w,
            center,
            radius,
            shell_width,
            cylindrical,
            options,
        ),
        _ => {}
    }
}
