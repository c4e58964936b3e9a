// The match of tessellate in src/tessellate.rs.
ghost use Rattle.weld.specs.Rep.{Ready};
ghost use Rattle.weld.specs.Welding.{held_by, WeldsParts};
ghost use Rattle.solid_spec.specs.Solid.{parts_of};
ghost use Rattle.solid.specs.Limits.{FewSegments, Listed};

use crate::{outlines, single, tubes};
use shape::{Shape, TessellationOptions};
use weld::Welding;

// Welds the parts of a shape, each by itself.
pub fn weld_shape(
    w: &mut Welding<'_>,
    shape: Shape,
    list: &[f64],
    cylindrical: bool,
    options: TessellationOptions,
)
    requires ready { Ready (held_by w.old) }
    requires few_segments { FewSegments options × Listed shape list.now }
    ensures { WeldsParts (parts_of cylindrical shape list.now options) w.old w.new }
{
    match shape {
        Shape::MultiBox => solid_parts::weld_multi_box(w, list, cylindrical, options.segments),
        Shape::Wire { radius } => solid_parts::weld_wire(w, list, cylindrical, radius, options),
        Shape::Polygon { .. } | Shape::LinPoly { .. } | Shape::RotPoly { .. } => {
            outlines::weld_outline(w, shape, list, options.segments);
            weld::new_part(w);
        }
        Shape::Cylinder { .. } | Shape::CylindricalShell { .. } => {
            tubes::weld_tube(w, shape, cylindrical, options.segments);
            weld::new_part(w);
        }
        _ => {
            single::weld_solid(w, shape, cylindrical, options);
            weld::new_part(w);
        }
    }
}
