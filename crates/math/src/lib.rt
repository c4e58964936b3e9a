// Points and directions, and the type of boxes along the axes: src/math.rs.
#![tactic(auto)]

mod vec;

// A point or a direction.
#[derive(Clone, Copy, Debug, PartialEq)]
pub struct Vec3 {
    pub x: f64,
    pub y: f64,
    pub z: f64,
}

// The box from one corner to the other. It is empty where min is above max on an axis.
#[derive(Clone, Copy, Debug, PartialEq)]
pub struct BoundingBox {
    pub min: Vec3,
    pub max: Vec3,
}
