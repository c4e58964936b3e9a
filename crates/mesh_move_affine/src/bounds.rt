// Vertices within the bounds stay finite under an affine matrix whose entries lie within them too. So they need no test.
ghost use Rattle.mesh_spec.specs.Decides.{Decides};
ghost use Rattle.mesh_move_affine.specs.Affine.{BoundedMatrix, RowsWithin};

use crate::is_affine;
use math_matrix::Mat4;

// Whether the first three rows lie within the bounds.
fn rows_within(a: Mat4) -> bool
    ensures { Decides result (RowsWithin a) }
{
    let m = a.m;
    slice_bounded::all_bounded(&m, 12)
}

// Whether they do and the last row is 0 0 0 1.
pub fn is_bounded(a: Mat4) -> bool
    ensures { Decides result (BoundedMatrix a) }
{
    is_affine(a) & rows_within(a)
}
