// The operations: `mesh.transform(..)` unless there are none.
ghost use Rattle.mesh_spec.specs.Edits.{transform};
ghost use Rattle.mesh_check.specs.State.{state, mesh_of, Sound};
ghost use Rattle.mesh_check.specs.Places.{Recorded, Whole};
ghost use Rattle.mesh_made.specs.Steps.{Makes};
ghost use Rattle.solid_spec.specs.Solid.{outward_if};
ghost use Rattle.tessellate_spec.specs.Outcome.{placed};
ghost use Rattle.tessellate_place.specs.Ends.{moved_refusal, placed_refusal};

use crate::turn;
use math_matrix::Mat4;
use mesh_check::TriMesh;
use refusal::Refusal;
use transform::Operations;

// The mesh under a matrix, unless a coordinate of it is not finite: refusal 5.
fn moved(
    mesh: TriMesh,
    vertices: &mut [f64],
    triangles: &mut [u32],
    a: Mat4,
) -> Result<TriMesh, Refusal>
    requires { Sound (state mesh vertices.old triangles.old) }
    ensures { Makes
        (moved_refusal a (mesh_of (state mesh vertices.old triangles.old)))
        (transform a (mesh_of (state mesh vertices.old triangles.old)))
        result vertices.new triangles.new }
{
    let n = mesh.vertices;
    if !mesh_stay_finite::stay_finite(vertices, n, a) {
        return Err(Refusal::PointNotFinite);
    }
    let after = mesh_move::move_mesh(mesh, vertices, triangles, a, false);
    Ok(after)
}

// The mesh under the operations that count.
fn place(
    mesh: TriMesh,
    vertices: &mut [f64],
    triangles: &mut [u32],
    ops: &Operations,
) -> Result<TriMesh, Refusal>
    requires { Recorded (state mesh vertices.old triangles.old) }
    ensures { Makes
        (placed_refusal ops.now.degrees ops.now.ops ops.now.count (mesh_of (state mesh vertices.old triangles.old)))
        (placed ops.now.degrees ops.now.ops ops.now.count (mesh_of (state mesh vertices.old triangles.old)))
        result vertices.new triangles.new }
{
    if ops.count == 0 {
        return Ok(mesh);
    }
    moved(mesh, vertices, triangles, transform::fold(ops))
}

// A welded mesh to its end: a rotated outline is turned outward, then the operations.
pub fn complete(
    rotated: bool,
    mesh: TriMesh,
    vertices: &mut [f64],
    triangles: &mut [u32],
    ops: &Operations,
) -> Result<TriMesh, Refusal>
    requires { Whole (state mesh vertices.old triangles.old) }
    ensures { Makes
        (placed_refusal ops.now.degrees ops.now.ops ops.now.count (outward_if rotated (mesh_of (state mesh vertices.old triangles.old))))
        (placed ops.now.degrees ops.now.ops ops.now.count (outward_if rotated (mesh_of (state mesh vertices.old triangles.old))))
        result vertices.new triangles.new }
{
    turn::turn_rotated(rotated, mesh, vertices, triangles);
    place(mesh, vertices, triangles, ops)
}
