// A solid, without operations.
ghost use Rattle.mesh_made.specs.Made.{lent};
ghost use Rattle.shape_fields.specs.Fields.{shape_of};
ghost use Rattle.replay_head.specs.Shapes.{system_of};
ghost use Rattle.c_solids.specs.Answers.{Tells, solid_in};

use shape::{Drawing, TessellationOptions};
use transform::{Operations, TransformOp};

// The mesh of a shape in the lent slices, its counts and its box. The shape is that of `shape_fields`, and `system` 1 is the cylindrical one.
#[unsafe(no_mangle)]
pub extern "C" fn sizturga_bench_solid(
    kind: u8,
    norm_dir: u8,
    rot_axis_dir: u8,
    numbers: &[f64; 10],
    list: &[f64],
    system: u8,
    segments: usize,
    rings: usize,
    vertices: &mut [f64],
    triangles: &mut [u32],
    work: &mut [u32],
    vertex_count: &mut usize,
    triangle_count: &mut usize,
    bounds: &mut [f64; 6],
) -> u32
    ensures { Tells
        (solid_in (system_of system) (shape_of kind norm_dir rot_axis_dir numbers.now) list.now segments rings
        (lent vertices.old triangles.old work.old))
        result vertex_count.new triangle_count.new bounds.new vertices.new triangles.new work.new }
{
    let d = Drawing {
        shape: shape_fields::shape_of(kind, norm_dir, rot_axis_dir, numbers),
        list,
        own: None,
        default: replay_head::system(system),
        options: TessellationOptions {
            segments,
            sphere_rings: rings,
        },
        operations: Operations {
            ops: [TransformOp::Scale(1.0); 16],
            count: 0,
            degrees: false,
        },
    };
    let made = tessellate::tessellate(&d, vertices, triangles, work);
    crate::told::tell(
        made,
        mesh_check::empty_record(),
        vertex_count,
        triangle_count,
        bounds,
    )
}
