// Refusal 1 of docs/SCOPE.md on what was drawn: a float is an infinity or a NaN.
#![tactic(auto)]

ghost use Rattle.std.specs.Prelude.{◌≡◌, take};
ghost use Rattle.std.specs.Float.Ieee.Scale.{finite};
ghost use Rattle.slice.specs.Every.{every};
ghost use Rattle.shape.specs.Drawing as Drawing;

use shape::{Items, Shape};
use transform::Operations;

// Whether every number of the shape itself is finite.
fn shape_finite(shape: Shape) -> bool
    ensures { result ≡ Drawing.shape_finite shape }
{
    match shape {
        Shape::Box { start, stop } => start.is_finite() & stop.is_finite(),
        Shape::MultiBox => true,
        Shape::Sphere { center, radius } => center.is_finite() & ieee::is_finite(radius),
        Shape::SphericalShell {
            center,
            radius,
            shell_width,
        } => center.is_finite() & ieee::is_finite(radius) & ieee::is_finite(shell_width),
        Shape::Cylinder {
            start,
            stop,
            radius,
        } => start.is_finite() & stop.is_finite() & ieee::is_finite(radius),
        Shape::CylindricalShell {
            start,
            stop,
            radius,
            shell_width,
        } => start.is_finite()
            & stop.is_finite()
            & ieee::is_finite(radius)
            & ieee::is_finite(shell_width),
        Shape::Polygon { elevation, .. } => ieee::is_finite(elevation),
        Shape::LinPoly {
            elevation,
            length,
            ..
        } => ieee::is_finite(elevation) & ieee::is_finite(length),
        Shape::RotPoly {
            elevation,
            start_angle,
            stop_angle,
            ..
        } => ieee::is_finite(elevation)
            & ieee::is_finite(start_angle)
            & ieee::is_finite(stop_angle),
        Shape::Wire { radius } => ieee::is_finite(radius),
    }
}

// Whether every float that a shape reads of its list is finite.
fn list_finite(items: Items, list: &[f64]) -> bool
    ensures { result ≡ every finite (Drawing.list_of items list.now) }
{
    match items {
        Items::NoItems => true,
        _ => slice::all_pass(list, ieee::is_finite),
    }
}

// Refusal 1 on the shape, its list and the operations that apply.
pub fn numbers_bad(shape: Shape, list: &[f64], ops: &Operations) -> bool
    ensures { result ≡ Drawing.numbers_bad shape list.now (take ops.now.count ops.now.ops) }
{
    let good = shape_finite(shape)
        & list_finite(shape::items_of(shape), list)
        & transform_check::ops_finite(ops);
    !good
}
