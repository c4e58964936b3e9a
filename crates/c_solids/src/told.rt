// The answers of the calls, told as plain numbers.
ghost use Rattle.std.specs.Prelude.{◌≡◌};
ghost use Rattle.refusal.specs.Answer.{answer_of};
ghost use Rattle.refusal.specs.Number.{number_of};
ghost use Rattle.mesh_check.specs.State.{record_of, record_after};
ghost use Rattle.c_solids.specs.Boxes.{box_in};

use crate::boxes::put_box;
use mesh_check::TriMesh;
use refusal::Refusal;

// Tells what a call on the mesh m made: the refusal's number, and the counts and the box of the record, which is m where the call is refused.
pub(crate) fn tell(
    made: Result<TriMesh, Refusal>,
    m: TriMesh,
    vertex_count: &mut usize,
    triangle_count: &mut usize,
    bounds: &mut [f64; 6],
) -> u32
    ensures number { result ≡ number_of (answer_of made) }
    ensures mesh { record_of vertex_count.new triangle_count.new (box_in bounds.new) ≡ record_after m made }
{
    let after = made.unwrap_or(m);
    *vertex_count = after.vertices;
    *triangle_count = after.triangles;
    put_box(bounds, after.bounds);
    refusal::number(made)
}
