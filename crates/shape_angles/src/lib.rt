// Refusal 2 of docs/SCOPE.md on what was drawn: the absolute value of an angle is above 1,000.
#![tactic(auto)]

ghost use Rattle.std.specs.Prelude.{◌≡◌, take};
ghost use Rattle.shape.specs.Drawing as Drawing;

use math::Vec3;
use shape::{Items, Shape};
use transform::Operations;
use trig::Radians;

// Whether the angle of a point is within 1,000, where it is taken as cylindrical.
fn point_within(cyl: bool, p: Vec3) -> bool
    ensures { result ≡ Drawing.point_within cyl p }
{
    !cyl | transform_angles::within_1000(Radians(p.y))
}

// Whether the angles of the shape's own points, and its start and stop angle, are within 1,000.
fn shape_within(cyl: bool, shape: Shape) -> bool
    ensures { result ≡ Drawing.shape_within cyl shape }
{
    match shape {
        Shape::Box { start, stop } => point_within(cyl, start) & point_within(cyl, stop),
        Shape::Sphere { center, .. } => point_within(cyl, center),
        Shape::SphericalShell { center, .. } => point_within(cyl, center),
        Shape::Cylinder { start, stop, .. } => point_within(cyl, start) & point_within(cyl, stop),
        Shape::CylindricalShell { start, stop, .. } => point_within(cyl, start)
            & point_within(cyl, stop),
        Shape::RotPoly {
            start_angle,
            stop_angle,
            ..
        } => transform_angles::within_1000(Radians(start_angle))
            & transform_angles::within_1000(Radians(stop_angle)),
        _ => true,
    }
}

// Whether the angles of the points in a list, three floats a point, are within 1,000.
fn points_within(list: &[f64]) -> bool
    ensures { result ≡ Drawing.points_within list.now }
{
    for point in list.chunks_exact(3) {
        if !transform_angles::within_1000(Radians(point[1])) {
            return false;
        }
    }
    true
}

// Whether the angles of a shape's list are within 1,000: those of points and boxes, where they are taken as cylindrical.
fn list_within(cyl: bool, items: Items, list: &[f64]) -> bool
    ensures { result ≡ Drawing.list_within cyl items list.now }
{
    match items {
        Items::Points | Items::Boxes => if cyl { points_within(list) } else { true },
        _ => true,
    }
}

// Refusal 2 on the shape, its list and the operations that apply.
pub fn angles_bad(cyl: bool, shape: Shape, list: &[f64], ops: &Operations) -> bool
    ensures { result ≡ Drawing.angles_bad cyl shape list.now ops.now.degrees (take ops.now.count ops.now.ops) }
{
    let good = shape_within(cyl, shape)
        & list_within(cyl, shape::items_of(shape), list)
        & transform_angles::ops_angles_within(ops);
    !good
}
