// The list that is lent beside a shape.
ghost use Rattle.std.specs.Prelude.{◌≡◌};
ghost use Rattle.shape.specs.Drawing as Drawing;

use crate::{Items, Shape};

// Which list a shape has.
#[tactic(auto, unfolding(crate::specs::Drawing::items_of), using(crate::proofs::Tags::corners_of, crate::proofs::Tags::no_items_of))]
pub fn items_of(shape: Shape) -> Items
    ensures { result ≡ Drawing.items_of shape }
{
    match shape {
        Shape::MultiBox => Items::Boxes,
        Shape::Polygon { .. } | Shape::LinPoly { .. } | Shape::RotPoly { .. } => Items::Corners,
        Shape::Wire { .. } => Items::Points,
        _ => Items::NoItems,
    }
}
