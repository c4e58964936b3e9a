// The maps of parameter boxes: src/coords.rs, and frame and the closure of cylinder of src/tessellate.rs.
#![tactic(auto)]

ghost use Rattle.std.specs.Prelude.{◌≡◌};
ghost use Rattle.solid_spec.specs.Coords.{cylindrical_to_cartesian, to_cartesian};
ghost use Rattle.solid_spec.specs.Cylinder as Cylinder;
ghost use Rattle.surface_coords.specs.Pieces as Pieces;

use math::Vec3;
use trig_spec::SinCos;

// (x * cos, x * sin, z).
pub fn cylindrical_by(t: SinCos, x: f64, z: f64) -> Vec3
    ensures { result ≡ Pieces.cylindrical_by t x z }
{
    Vec3 {
        x: x * t.cos,
        y: x * t.sin,
        z: z,
    }
}

fn cylindrical_to_cartesian(p: Vec3) -> Vec3
    ensures { result ≡ cylindrical_to_cartesian p }
{
    cylindrical_by(trig::sin_cos(p.y), p.x, p.z)
}

pub fn to_cartesian(p: Vec3, cylindrical: bool) -> Vec3
    ensures { result ≡ to_cartesian cylindrical p }
{
    if cylindrical {
        cylindrical_to_cartesian(p)
    } else {
        p
    }
}

// The axis that frame crosses d with.
fn beside(d: Vec3) -> Vec3
    ensures { result ≡ Pieces.beside d }
{
    if ieee::abs(d.x) < 0.9 {
        Vec3::unit(0)
    } else {
        Vec3::unit(1)
    }
}

// The first vector of frame.
pub fn frame1(d: Vec3) -> Vec3
    ensures { result ≡ Cylinder.frame1 d }
{
    math_norm::normalized(math_norm::cross(d, beside(d)))
}

// The second vector of frame.
pub fn frame2(d: Vec3) -> Vec3
    ensures { result ≡ Cylinder.frame2 d }
{
    math_norm::cross(d, frame1(d))
}

// e1 * cs + e2 * sn.
fn in_frame(e1: Vec3, e2: Vec3, cs: f64, sn: f64) -> Vec3
    ensures { result ≡ Pieces.in_frame e1 e2 cs sn }
{
    e1 * cs + e2 * sn
}

// a + d * z + (e1 * cos + e2 * sin) * x.
pub fn around_axis_by(a: Vec3, d: Vec3, e1: Vec3, e2: Vec3, t: SinCos, x: f64, z: f64) -> Vec3
    ensures { result ≡ Pieces.around_axis_by a d e1 e2 t x z }
{
    let along = a + d * z;
    along + in_frame(e1, e2, t.cos, t.sin) * x
}
