// Which refusal `transform` answers, in docs/SCOPE.md's order of checks: 8, 4, 1, 8 for the box, 2, and where there are operations 5. Nothing is written
// here.
#![tactic(auto)]

ghost use Rattle.std.specs.Prelude.{◌≡◌, ◌++◌, ◌*◌, take};
ghost use Rattle.mesh_spec.specs.Slices.{points, coords};
ghost use Rattle.mesh_move_affine.specs.Affine.{Tested};
ghost use Rattle.refusal.specs.Answer.{answer_of};
ghost use Rattle.mesh_check.specs.State.{state};
ghost use Rattle.slice.specs.Every.{every};
ghost use Rattle.slice_bounded.specs.Bounded.{is_bounded};
ghost use Rattle.mesh_check_transform.specs.Transform.{move_refusal, transform_refusal};

use math::BoundingBox;
use mesh_check::TriMesh;
use refusal::Refusal;
use transform::Operations;

// What is left of a transform's refusals after 8, 4, 1 and the box: 2, and where there are operations 5.
fn move_refusal(vertices: &[f64], n: usize, small: bool, ops: &Operations) -> Result<(), Refusal>
    requires { Tested vertices.now n small }
    ensures { answer_of result
        ≡ move_refusal ops.now.ops ops.now.count ops.now.degrees (points (take (3 * n) vertices.now)) }
{
    if !transform_angles::ops_angles_within(ops) {
        return Err(Refusal::AngleTooLarge);
    }
    if ops.count == 0 {
        return Ok(());
    }
    if !mesh_stay_finite::tested_stay_finite(vertices, n, transform::fold(ops), small) {
        return Err(Refusal::PointNotFinite);
    }
    Ok(())
}

// Whether the bounds lie within ±2^400. What lies in the box does so then, and needs no test.
fn is_small(b: BoundingBox) -> bool
    ensures { result ≡ every is_bounded (coords b.min ++ coords b.max) }
{
    let low = b.min;
    let high = b.max;
    let six = [low.x, low.y, low.z, high.x, high.y, high.z];
    slice_bounded::all_bounded(&six, 6)
}

// 8, 4, 1, 8 for the box, then the rest. 1 and the box take one pass over the vertices, and the box tells whether they are small.
pub fn transform_refusal(
    mesh: TriMesh,
    vertices: &[f64],
    triangles: &[u32],
    ops: &Operations,
) -> Result<(), Refusal>
    ensures { answer_of result
        ≡ transform_refusal ops.now.ops ops.now.count ops.now.degrees (state mesh vertices.now triangles.now) }
{
    if mesh_check::bad_mesh(mesh, vertices, triangles) {
        return Err(Refusal::BadMesh);
    }
    if transform_check::too_many_ops(ops.count) {
        return Err(Refusal::BadList);
    }
    let found = mesh_box::finite_box(vertices, mesh.vertices);
    if !(found.finite & transform_check::ops_finite(ops)) {
        return Err(Refusal::NotFinite);
    }
    if !mesh_box::same_box(mesh.bounds, found.bounds) {
        return Err(Refusal::BadMesh);
    }
    move_refusal(vertices, mesh.vertices, is_small(found.bounds), ops)
}
