// Points and directions: `impl Vec3` of src/math.rs and its operators, but for products and norms.
ghost use Rattle.std.specs.Prelude.{◌≡◌};
ghost use Rattle.math.specs.Vec as Vec;

use crate::Vec3;
use std::ops::{Add, Div, Mul, Sub};

impl Vec3 {
    pub fn new(x: f64, y: f64, z: f64) -> Vec3
        ensures { result ≡ Vec.new x y z }
    {
        Vec3 { x, y, z }
    }

    // The unit vector along an axis: 0 is x, 1 is y. Callers pass 0, 1 or 2; any other number counts as 2, z.
    #[tactic(auto, unfolding(crate::specs::Vec::unit))]
    pub fn unit(axis: usize) -> Vec3
        ensures { result ≡ Vec.unit axis }
    {
        match axis {
            0 => Vec3::new(1.0, 0.0, 0.0),
            1 => Vec3::new(0.0, 1.0, 0.0),
            _ => Vec3::new(0.0, 0.0, 1.0),
        }
    }

    // The component along an axis, numbered as in unit.
    #[tactic(auto, unfolding(crate::specs::Vec::axis))]
    pub fn axis(self, k: usize) -> f64
        ensures { result ≡ Vec.axis self k }
    {
        match k {
            0 => self.x,
            1 => self.y,
            _ => self.z,
        }
    }

    // The same with another component along an axis, numbered as in unit.
    #[tactic(auto, unfolding(crate::specs::Vec::with_axis))]
    pub fn with_axis(self, k: usize, value: f64) -> Vec3
        ensures { result ≡ Vec.with_axis self k value }
    {
        match k {
            0 => Vec3 { x: value, ..self },
            1 => Vec3 { y: value, ..self },
            _ => Vec3 { z: value, ..self },
        }
    }

    // The lesser of each two components.
    #[tactic(auto, unfolding(crate::specs::Vec::v_min))]
    pub fn min(self, other: Vec3) -> Vec3
        ensures { result ≡ Vec.v_min self other }
    {
        Vec3::new(
            ieee::min(self.x, other.x),
            ieee::min(self.y, other.y),
            ieee::min(self.z, other.z),
        )
    }

    // The greater of each two components.
    #[tactic(auto, unfolding(crate::specs::Vec::v_max))]
    pub fn max(self, other: Vec3) -> Vec3
        ensures { result ≡ Vec.v_max self other }
    {
        Vec3::new(
            ieee::max(self.x, other.x),
            ieee::max(self.y, other.y),
            ieee::max(self.z, other.z),
        )
    }

    #[tactic(auto, unfolding(crate::specs::Vec::v_finite))]
    pub fn is_finite(self) -> bool
        ensures { result ≡ Vec.v_finite self }
    {
        ieee::is_finite(self.x) & ieee::is_finite(self.y) & ieee::is_finite(self.z)
    }
}

impl Add for Vec3 {
    type Output = Vec3;

    ghost add_gives = { λ a b r. r ≡ Vec.v_add a b };

    #[tactic(auto, unfolding(crate::specs::Vec::v_add))]
    fn add(self, b: Vec3) -> Vec3 {
        Vec3::new(self.x + b.x, self.y + b.y, self.z + b.z)
    }
}

impl Sub for Vec3 {
    type Output = Vec3;

    ghost sub_gives = { λ a b r. r ≡ Vec.v_sub a b };

    #[tactic(auto, unfolding(crate::specs::Vec::v_sub))]
    fn sub(self, b: Vec3) -> Vec3 {
        Vec3::new(self.x - b.x, self.y - b.y, self.z - b.z)
    }
}

impl Mul<f64> for Vec3 {
    type Output = Vec3;

    ghost mul_gives = { λ a s r. r ≡ Vec.v_mul a s };

    #[tactic(auto, unfolding(crate::specs::Vec::v_mul))]
    fn mul(self, s: f64) -> Vec3 {
        Vec3::new(self.x * s, self.y * s, self.z * s)
    }
}

impl Div<f64> for Vec3 {
    type Output = Vec3;

    ghost div_gives = { λ a s r. r ≡ Vec.v_div a s };

    #[tactic(auto, unfolding(crate::specs::Vec::v_div))]
    fn div(self, s: f64) -> Vec3 {
        Vec3::new(self.x / s, self.y / s, self.z / s)
    }
}
