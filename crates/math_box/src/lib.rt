// Boxes along the axes: `impl BoundingBox` of src/math.rs, `union` without its tests for empty boxes.
#![tactic(auto)]

ghost use Rattle.std.specs.Prelude.{◌≡◌, not, T};
ghost use Rattle.std.specs.Float.Ieee.{is_nan};
ghost use Rattle.ieee.specs.Number.{minimum, maximum};
ghost use Rattle.math.specs.Box as Box;
ghost use Rattle.math_box.specs.NoNan.{NoNan};

use math::{BoundingBox, Vec3};

pub fn empty_box() -> BoundingBox
    ensures { result ≡ Box.empty_box }
{
    BoundingBox {
        min: Vec3::new(1.0 / 0.0, 1.0 / 0.0, 1.0 / 0.0),
        max: Vec3::new(-1.0 / 0.0, -1.0 / 0.0, -1.0 / 0.0),
    }
}

// f64::min where a is no NaN.
// Not ieee::min, which tests for a NaN too: here, in the loop of a box, one comparison decides (docs/DECISIONS.md).
fn lesser(a: f64, b: f64) -> f64
    requires { T (not (is_nan a)) }
    ensures { result ≡ minimum a b }
{
    if b < a { b } else { a }
}

// f64::max where a is no NaN.
fn greater(a: f64, b: f64) -> f64
    requires { T (not (is_nan a)) }
    ensures { result ≡ maximum a b }
{
    if a < b { b } else { a }
}

// The box grown to hold p. No bound of it is a NaN.
pub fn include(b: BoundingBox, p: Vec3) -> BoundingBox
    requires { NoNan b }
    ensures { result ≡ Box.include b p }
{
    let low = b.min;
    let high = b.max;
    BoundingBox {
        min: Vec3 {
            x: lesser(low.x, p.x),
            y: lesser(low.y, p.y),
            z: lesser(low.z, p.z),
        },
        max: Vec3 {
            x: greater(high.x, p.x),
            y: greater(high.y, p.y),
            z: greater(high.z, p.z),
        },
    }
}

// The lesser of each two least bounds, the greater of each two greatest.
#[tactic(auto, unfolding(math::specs::Box::union))]
pub fn union(a: BoundingBox, b: BoundingBox) -> BoundingBox
    ensures { result ≡ Box.union a b }
{
    BoundingBox {
        min: a.min.min(b.min),
        max: a.max.max(b.max),
    }
}
