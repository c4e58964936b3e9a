// A shape by the number of its kind, its directions and its numbers in the Rust's field order, as files of solids and tests hold it.
#![tactic(auto)]

ghost use Rattle.std.specs.Prelude.{◌≡◌};
ghost use Rattle.shape_fields.specs.Fields.{point_at, pointed, shape_of};

use math::Vec3;
use shape::Shape;

// The point of the first three numbers.
fn first_point(n: &[f64; 10]) -> Vec3
    ensures { result ≡ point_at n.now 0 }
{
    Vec3 {
        x: n[0],
        y: n[1],
        z: n[2],
    }
}

// The point of the three numbers after them.
fn second_point(n: &[f64; 10]) -> Vec3
    ensures { result ≡ point_at n.now 3 }
{
    Vec3 {
        x: n[3],
        y: n[4],
        z: n[5],
    }
}

// The kinds whose numbers begin with a point.
fn with_points(kind: u8, n: &[f64; 10]) -> Shape
    ensures { result ≡ pointed kind n.now }
{
    let p = first_point(n);
    let q = second_point(n);
    match kind {
        0 => Shape::Box { start: p, stop: q },
        2 => Shape::Sphere {
            center: p,
            radius: n[3],
        },
        3 => Shape::SphericalShell {
            center: p,
            radius: n[3],
            shell_width: n[4],
        },
        4 => Shape::Cylinder {
            start: p,
            stop: q,
            radius: n[6],
        },
        _ => Shape::CylindricalShell {
            start: p,
            stop: q,
            radius: n[6],
            shell_width: n[7],
        },
    }
}

// The shape of the kind, 0 to 9 in the order of `Shape`; any other number counts as 5. Numbers and directions that a kind has no use for change nothing.
// The number is read into Shape here, once: an enum of kinds beside it would be a second list of the same ten.
// Not From: the kind, the directions and the numbers come apart, from C too, and would be put into a tuple for it.
pub fn shape_of(kind: u8, norm_dir: u8, rot_axis_dir: u8, n: &[f64; 10]) -> Shape
    ensures { result ≡ shape_of kind norm_dir rot_axis_dir n.now }
{
    match kind {
        1 => Shape::MultiBox,
        6 => Shape::Polygon {
            norm_dir,
            elevation: n[0],
        },
        7 => Shape::LinPoly {
            norm_dir,
            elevation: n[0],
            length: n[1],
        },
        8 => Shape::RotPoly {
            norm_dir,
            elevation: n[0],
            rot_axis_dir,
            start_angle: n[1],
            stop_angle: n[2],
        },
        9 => Shape::Wire { radius: n[0] },
        _ => with_points(kind, n),
    }
}
