// The coordinate system in which a shape's points are taken: src/primitives/mod.rs.
ghost use Rattle.std.specs.Prelude.{◌≡◌};
ghost use Rattle.shape.specs.Drawing as Drawing;

use crate::{CoordSystem, Shape};

// Primitive::effective_cs: a primitive's own system, or the drawing's default.
#[tactic(auto, using(crate::proofs::Tags::own_or_default))]
fn effective_cs(own: Option<CoordSystem>, default: CoordSystem) -> CoordSystem
    ensures { result ≡ Drawing.effective_cs own default }
{
    own.unwrap_or(default)
}

// Primitive::shape_cs: the effective system, but for a multi-box, which is always taken in the default one.
#[tactic(auto, unfolding(crate::specs::Drawing::shape_cs), using(crate::proofs::Tags::own_system))]
pub fn shape_cs(shape: Shape, own: Option<CoordSystem>, default: CoordSystem) -> CoordSystem
    ensures { result ≡ Drawing.shape_cs shape own default }
{
    match shape {
        Shape::MultiBox => default,
        _ => effective_cs(own, default),
    }
}

// Whether a system is the cylindrical one.
#[tactic(auto, using(crate::proofs::Tags::same_as_cylindrical))]
pub fn is_cylindrical(cs: CoordSystem) -> bool
    ensures { result ≡ Drawing.cylindrical cs }
{
    cs == CoordSystem::Cylindrical
}
