// What a user draws: a shape with its list, its coordinate system, the resolution and the operations. The specs say which drawings are refused;
// `shape_check` checks them.
#![tactic(auto)]

mod lists;
mod rotated;
mod systems;

pub use lists::items_of;
use math::Vec3;
pub use rotated::is_rot_poly;
pub use systems::{is_cylindrical, shape_cs};
use transform::Operations;

// coords.rs: enum CoordSystem.
#[derive(Clone, Copy, PartialEq, Eq, Debug)]
pub enum CoordSystem {
    Cartesian,
    Cylindrical,
}

// tessellate.rs: struct TessellationOptions.
#[derive(Clone, Copy, PartialEq, Eq, Debug)]
pub struct TessellationOptions {
    pub segments: usize,
    pub sphere_rings: usize,
}

// primitives/mod.rs: enum Shape. A shape's list (boxes, corners, points) is lent beside it.
#[derive(Clone, Copy)]
pub enum Shape {
    Box {
        start: Vec3,
        stop: Vec3,
    },
    MultiBox,
    Sphere {
        center: Vec3,
        radius: f64,
    },
    SphericalShell {
        center: Vec3,
        radius: f64,
        shell_width: f64,
    },
    Cylinder {
        start: Vec3,
        stop: Vec3,
        radius: f64,
    },
    CylindricalShell {
        start: Vec3,
        stop: Vec3,
        radius: f64,
        shell_width: f64,
    },
    Polygon {
        norm_dir: u8,
        elevation: f64,
    },
    LinPoly {
        norm_dir: u8,
        elevation: f64,
        length: f64,
    },
    RotPoly {
        norm_dir: u8,
        elevation: f64,
        rot_axis_dir: u8,
        start_angle: f64,
        stop_angle: f64,
    },
    Wire {
        radius: f64,
    },
}

// The list that is lent beside a shape: none, the corners of an outline (2 floats each), the points of a wire (3), or boxes (6).
#[derive(Clone, Copy, PartialEq, Eq, Debug)]
pub enum Items {
    NoItems,
    Corners,
    Points,
    Boxes,
}

// What a user draws: a shape with the list that is lent beside it, its own system or none and the default one, the resolution, and the operations.
#[derive(Clone, Copy)]
pub struct Drawing<'a> {
    pub shape: Shape,
    pub list: &'a [f64],
    pub own: Option<CoordSystem>,
    pub default: CoordSystem,
    pub options: TessellationOptions,
    pub operations: Operations,
}
