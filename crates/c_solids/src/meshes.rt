// The mesh calls. The counts and the box of a mesh that is edited are given and answered through the same references.
ghost use Rattle.std.specs.Prelude.{◌≡◌, false};
ghost use Rattle.mesh_measures.specs.Measures.{area_of, signed_volume_of, bounding_box_of};
ghost use Rattle.mesh_edit_law.specs.Edits.{append_of, flip_of, transform_of};
ghost use Rattle.c_solids.specs.Answers.{given, TellsBox, Leaves, at, turn_then_move};

use crate::boxes::{box_in, put_box};
use crate::told::tell;
use math::Vec3;
use transform::{Operations, TransformOp};

// The bits of the area.
#[unsafe(no_mangle)]
pub extern "C" fn sizturga_bench_area(
    vertex_count: usize,
    triangle_count: usize,
    bounds: &[f64; 6],
    vertices: &[f64],
    triangles: &[u32],
) -> u64
    ensures { result ≡ (area_of (given vertex_count triangle_count bounds.now vertices.now triangles.now)).bits }
{
    let m = mesh_check::record_of(vertex_count, triangle_count, box_in(bounds));
    mesh::bits_or_zero(mesh::area(m, vertices, triangles))
}

// The bits of the signed volume.
#[unsafe(no_mangle)]
pub extern "C" fn sizturga_bench_signed_volume(
    vertex_count: usize,
    triangle_count: usize,
    bounds: &[f64; 6],
    vertices: &[f64],
    triangles: &[u32],
) -> u64
    ensures { result ≡ (signed_volume_of (given vertex_count triangle_count bounds.now vertices.now triangles.now)).bits }
{
    let m = mesh_check::record_of(vertex_count, triangle_count, box_in(bounds));
    mesh::bits_or_zero(mesh::signed_volume(m, vertices, triangles))
}

// The box of the vertices, as six floats to out, zeros where the mesh is refused. The refusal is answered by its number.
#[unsafe(no_mangle)]
pub extern "C" fn sizturga_bench_bounding_box(
    vertex_count: usize,
    triangle_count: usize,
    bounds: &[f64; 6],
    vertices: &[f64],
    triangles: &[u32],
    out: &mut [f64; 6],
) -> u32
    ensures { TellsBox
        (bounding_box_of (given vertex_count triangle_count bounds.now vertices.now triangles.now)) result out.new }
{
    let m = mesh_check::record_of(vertex_count, triangle_count, box_in(bounds));
    let boxed = mesh::bounding_box(m, vertices, triangles);
    put_box(out, mesh::box_or_zeros(boxed));
    refusal::number(boxed)
}

#[unsafe(no_mangle)]
pub extern "C" fn sizturga_bench_append(
    vertex_count: &mut usize,
    triangle_count: &mut usize,
    bounds: &mut [f64; 6],
    vertices: &mut [f64],
    triangles: &mut [u32],
    other_vertex_count: usize,
    other_triangle_count: usize,
    other_bounds: &[f64; 6],
    other_vertices: &[f64],
    other_triangles: &[u32],
) -> u32
    ensures { Leaves
        (append_of (given vertex_count.old triangle_count.old bounds.old vertices.old triangles.old)
        (given other_vertex_count other_triangle_count other_bounds.now other_vertices.now other_triangles.now))
        result vertex_count.new triangle_count.new bounds.new vertices.new triangles.new }
{
    let m = mesh_check::record_of(*vertex_count, *triangle_count, box_in(bounds));
    let made = mesh::append(
        m,
        vertices,
        triangles,
        mesh_check::record_of(
            other_vertex_count,
            other_triangle_count,
            box_in(other_bounds),
        ),
        other_vertices,
        other_triangles,
    );
    tell(made, m, vertex_count, triangle_count, bounds)
}

#[unsafe(no_mangle)]
pub extern "C" fn sizturga_bench_flip(
    vertex_count: &mut usize,
    triangle_count: &mut usize,
    bounds: &mut [f64; 6],
    vertices: &[f64],
    triangles: &mut [u32],
) -> u32
    ensures { Leaves
        (flip_of (given vertex_count.old triangle_count.old bounds.old vertices.now triangles.old))
        result vertex_count.new triangle_count.new bounds.new vertices.now triangles.new }
{
    let m = mesh_check::record_of(*vertex_count, *triangle_count, box_in(bounds));
    let made = mesh::flip(m, vertices, triangles);
    tell(made, m, vertex_count, triangle_count, bounds)
}

// A rotation by an angle in radians about an axis through the origin, then a translation.
#[unsafe(no_mangle)]
pub extern "C" fn sizturga_bench_transform(
    vertex_count: &mut usize,
    triangle_count: &mut usize,
    bounds: &mut [f64; 6],
    vertices: &mut [f64],
    triangles: &mut [u32],
    axis_x: f64,
    axis_y: f64,
    axis_z: f64,
    angle: f64,
    x: f64,
    y: f64,
    z: f64,
) -> u32
    ensures { Leaves
        (transform_of (turn_then_move (at axis_x axis_y axis_z) angle (at x y z)) 2 false
        (given vertex_count.old triangle_count.old bounds.old vertices.old triangles.old))
        result vertex_count.new triangle_count.new bounds.new vertices.new triangles.new }
{
    let shift = TransformOp::Translate(Vec3 { x, y, z });
    let mut ops = [shift; 16];
    ops[0] = TransformOp::RotateOrigin(
        Vec3 {
            x: axis_x,
            y: axis_y,
            z: axis_z,
        },
        angle,
    );
    let m = mesh_check::record_of(*vertex_count, *triangle_count, box_in(bounds));
    let operations = Operations {
        ops,
        count: 2,
        degrees: false,
    };
    let made = mesh::transform(m, vertices, triangles, &operations);
    tell(made, m, vertex_count, triangle_count, bounds)
}
