// Matrices that turn: `Mat4::rotation` of src/math.rs.
#![tactic(auto)]

ghost use Rattle.std.specs.Prelude.{◌≡◌};
ghost use Rattle.math_rotation.specs.Rotation as Rotation;

use math::Vec3;
use math_matrix::{Mat4, from_rows, new_row};
use trig::Radians;

// The rotation about a, which is the axis divided by its length, or zero, by the angle whose sine is s and whose cosine is c.
fn turn(a: Vec3, s: f64, c: f64) -> Mat4
    ensures { result ≡ Rotation.turn a s c }
{
    let t = 1.0 - c;
    let x = a.x;
    let y = a.y;
    let z = a.z;
    from_rows(
        new_row(t * x * x + c, t * x * y - s * z, t * x * z + s * y, 0.0),
        new_row(t * x * y + s * z, t * y * y + c, t * y * z - s * x, 0.0),
        new_row(t * x * z - s * y, t * y * z + s * x, t * z * z + c, 0.0),
        new_row(0.0, 0.0, 0.0, 1.0),
    )
}

// The right-handed rotation about an axis through the origin.
pub fn rotation(axis: Vec3, angle: Radians) -> Mat4
    ensures { result ≡ Rotation.rotation axis angle }
{
    let p = trig::sin_cos(angle.0);
    turn(math_norm::normalized(axis), p.sin, p.cos)
}
