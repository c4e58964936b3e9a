// The drawing of a solid: its parts welded, then refusals 5 and 7, then the mesh to its end.
#![tactic(auto)]

ghost use Rattle.std.specs.Prelude.{◌≡◌, false, length};
ghost use Rattle.mesh_spec.specs.Mesh.{from_parts};
ghost use Rattle.mesh_made.specs.Made.{lent, short_work};
ghost use Rattle.mesh_made.specs.Steps.{Makes, parts_refusal};
ghost use Rattle.solid_spec.specs.Solid.{parts_of};
ghost use Rattle.tessellate_spec.specs.Outcome.{job_of, final_mesh, refusal_of};
ghost use Rattle.tessellate_weld.specs.Steps.{Drawable, Drawn};

use mesh_check::TriMesh;
use refusal::Refusal;
use shape::{Drawing, Shape, TessellationOptions};
use weld::Welding;

// Welds the parts of the shape into the slices, from an empty mesh.
fn weld_all(
    vertices: &mut [f64],
    triangles: &mut [u32],
    work: &mut [u32],
    shape: Shape,
    list: &[f64],
    cylindrical: bool,
    options: TessellationOptions,
) -> Result<TriMesh, Refusal>
    requires { Drawable shape list.now options × (short_work (length vertices.old) (length work.old) ≡ false) }
    ensures { Makes
        (parts_refusal (parts_of cylindrical shape list.now options) (lent vertices.old triangles.old work.old))
        (from_parts (parts_of cylindrical shape list.now options))
        result vertices.new triangles.new }
{
    let st = weld::begin(vertices, work);
    let mut w = Welding {
        st,
        vertices,
        triangles,
        work,
    };
    solid::weld_shape(&mut w, shape, list, cylindrical, options);
    let welded = w.st;
    mesh_made::judge(welded, vertices)
}

// The parts welded, and the mesh turned outward and under the operations, unless it is refused.
pub fn draw(
    d: &Drawing<'_>,
    vertices: &mut [f64],
    triangles: &mut [u32],
    work: &mut [u32],
) -> Result<TriMesh, Refusal>
    requires { Drawn (job_of d.now) (lent vertices.old triangles.old work.old) }
    ensures { Makes
        (refusal_of (job_of d.now) (lent vertices.old triangles.old work.old))
        (final_mesh (job_of d.now))
        result vertices.new triangles.new }
{
    let cylindrical = shape::is_cylindrical(shape::shape_cs(d.shape, d.own, d.default));
    let rotated = shape::is_rot_poly(d.shape);
    let mesh = weld_all(
        vertices,
        triangles,
        work,
        d.shape,
        d.list,
        cylindrical,
        d.options,
    )?;
    tessellate_place::complete(rotated, mesh, vertices, triangles, &d.operations)
}
