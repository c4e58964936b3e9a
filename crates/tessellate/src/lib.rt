// The call tessellate of src/tessellate.rs over lent memory: a shape with its list, its system, its resolution and its operations
// becomes a mesh in the lent slices, or is refused.
#![tactic(auto)]

ghost use Rattle.mesh_made.specs.Made.{lent};
ghost use Rattle.mesh_made.specs.Steps.{Makes};
ghost use Rattle.tessellate_spec.specs.Outcome.{job_of, final_mesh, refusal_of};
ghost use Rattle.tessellate_law.specs.Promise.{Promise};
ghost use Rattle.tessellate_law.specs.Words.{FitsSolid};

use mesh_check::TriMesh;
use refusal::Refusal;
use shape::{Drawing, Shape};

// The checks, then the drawing.
fn make(
    d: &Drawing<'_>,
    vertices: &mut [f64],
    triangles: &mut [u32],
    work: &mut [u32],
) -> Result<TriMesh, Refusal>
    ensures { Makes
        (refusal_of (job_of d.now) (lent vertices.old triangles.old work.old))
        (final_mesh (job_of d.now))
        result vertices.new triangles.new }
{
    let short = mesh_made::short_work(vertices.len(), work.len());
    let drawn = shape_check::check_drawing(d);
    if short {
        return Err(Refusal::ShortWork);
    }
    drawn?;
    tessellate_weld::draw(d, vertices, triangles, work)
}

// The floats of a shape and of its list are floats of binary64, as all that a program holds are.
fn are_floats(shape: Shape, list: &[f64])
    ensures { FitsSolid shape list.now }
{}

// tessellate: the mesh of a drawing in the lent slices, three floats a vertex and three numbers a triangle; its record, or a refusal.
pub fn tessellate(
    d: &Drawing<'_>,
    vertices: &mut [f64],
    triangles: &mut [u32],
    work: &mut [u32],
) -> Result<TriMesh, Refusal>
    ensures { Promise
        (job_of d.now) (lent vertices.old triangles.old work.old)
        result vertices.new triangles.new work.new }
{
    are_floats(d.shape, d.list);
    let made = make(d, vertices, triangles, work);
    mesh_made::end(made, vertices, triangles, work)
}
