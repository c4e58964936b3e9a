// Products of two vectors, norms, and vectors scaled to length 1: the rest of `impl Vec3` of src/math.rs.
#![tactic(auto)]

ghost use Rattle.std.specs.Prelude.{◌≡◌};
ghost use Rattle.math.specs.Vec as Vec;

use math::Vec3;

pub fn dot(a: Vec3, b: Vec3) -> f64
    ensures { result ≡ Vec.dot a b }
{
    a.x * b.x + a.y * b.y + a.z * b.z
}

pub fn cross(a: Vec3, b: Vec3) -> Vec3
    ensures { result ≡ Vec.cross a b }
{
    Vec3 {
        x: a.y * b.z - a.z * b.y,
        y: a.z * b.x - a.x * b.z,
        z: a.x * b.y - a.y * b.x,
    }
}

pub fn norm_sq(a: Vec3) -> f64
    ensures { result ≡ Vec.norm_sq a }
{
    dot(a, a)
}

pub fn norm(a: Vec3) -> f64
    ensures { result ≡ Vec.norm a }
{
    root::sqrt(norm_sq(a))
}

// a scaled to length 1, or zero where the norm is not above 0.
#[tactic(auto, unfolding(math::specs::Vec::normalized))]
pub fn normalized(a: Vec3) -> Vec3
    ensures { result ≡ Vec.normalized a }
{
    let n = norm(a);
    if n > 0.0 {
        a / n
    } else {
        Vec3::new(0.0, 0.0, 0.0)
    }
}
