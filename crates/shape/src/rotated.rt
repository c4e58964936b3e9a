// Rotated outlines, whose mesh is turned outward at the end of the case RotPoly of tessellate in src/tessellate.rs.
ghost use Rattle.std.specs.Prelude.{◌≡◌};
ghost use Rattle.shape.specs.Rotated.{is_rot_poly};

use crate::Shape;

// Whether the shape is a rotated outline.
#[tactic(auto, unfolding(crate::specs::Rotated::is_rot_poly), using(crate::proofs::Tags::not_rotated))]
pub fn is_rot_poly(shape: Shape) -> bool
    ensures { result ≡ is_rot_poly shape }
{
    matches!(shape, Shape::RotPoly { .. })
}
