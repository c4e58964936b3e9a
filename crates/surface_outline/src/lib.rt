// The points of outlines: plane_point and the closures of extruded_polygon and rotpoly of src/tessellate.rs.
#![tactic(auto)]

ghost use Rattle.std.specs.Prelude.{◌≡◌, ◌≤◌, ◌<◌};
ghost use Rattle.solid_spec.specs.Outline as Outline;
ghost use Rattle.surface_outline.specs.Pieces as Pieces;

use ieee::TAU;
use math::Vec3;
use outline::Point;
use trig_spec::SinCos;

// The corner c of an outline in the plane with the normal n, at the height h.
// Not surface_axis::face_point: the edit plane_points_crossed (docs/PROOFS.md) exchanges the coordinates of one of the three cases.
pub fn plane_point(n: usize, c: Point, h: f64) -> Vec3
    requires { n < 3 }
    ensures { result ≡ Outline.plane_point n c h }
{
    if n == 0 {
        Vec3 {
            x: h,
            y: c.x,
            z: c.y,
        }
    } else if n == 1 {
        Vec3 {
            x: c.y,
            y: h,
            z: c.x,
        }
    } else {
        Vec3 {
            x: c.x,
            y: c.y,
            z: h,
        }
    }
}

// The end of an extruded outline by its number: 0 is lo, any other is hi.
pub fn height(lo: f64, hi: f64, k: usize) -> f64
    ensures { result ≡ Outline.height lo hi k }
{
    if k == 0 { lo } else { hi }
}

// The angle of step k of n. A full turn ends where it starts.
pub fn angle(full: bool, start: f64, span: f64, n: usize, k: usize) -> f64
    requires n_positive { 0 < n }
    requires n_in_bounds { n ≤ 1024 }
    requires k_in_bounds { k ≤ n }
    ensures { result ≡ Outline.angle full start span n k }
{
    if full {
        let m = k % n;
        start + TAU * (m as f64) / (n as f64)
    } else {
        start + span * (k as f64) / (n as f64)
    }
}

// Vec3::unit(q) * cs + w * sn, with w the product of the unit vectors of a and q.
fn radial(a: usize, q: usize, t: SinCos) -> Vec3
    ensures { result ≡ Pieces.radial a q t }
{
    let u = Vec3::unit(q);
    let w = math_norm::cross(Vec3::unit(a), u);
    u * t.cos + w * t.sin
}

// Vec3::unit(a) * h + (Vec3::unit(q) * cs + w * sn) * rad, of a corner (rad, h).
pub fn spun(a: usize, q: usize, c: Point, t: SinCos) -> Vec3
    ensures { result ≡ Outline.spun a q c t }
{
    let along = Vec3::unit(a) * c.y;
    along + radial(a, q, t) * c.x
}
