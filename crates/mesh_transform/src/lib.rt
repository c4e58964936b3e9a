// Moving a mesh by operations.
#![tactic(auto)]

ghost use Rattle.mesh_check.specs.State.{state};
ghost use Rattle.mesh_edit_law.specs.Outcome.{GivesEdit};
ghost use Rattle.mesh_edit_law.specs.Edits.{transform_of};

use mesh_check::TriMesh;
use refusal::Refusal;
use transform::Operations;

// Moves the vertices by the operations that count, whose angles are in degrees or in radians. A mirroring flips the triangles.
pub fn transform(
    mesh: TriMesh,
    vertices: &mut [f64],
    triangles: &mut [u32],
    ops: &Operations,
) -> Result<TriMesh, Refusal>
    ensures { GivesEdit
        (transform_of ops.now.ops ops.now.count ops.now.degrees (state mesh vertices.old triangles.old))
        mesh result vertices.new triangles.new }
{
    mesh_check_transform::transform_refusal(mesh, vertices, triangles, ops)?;
    if ops.count == 0 {
        return Ok(mesh);
    }
    let a = transform::fold(ops);
    let after = mesh_move::move_mesh(mesh, vertices, triangles, a, true);
    Ok(after)
}
