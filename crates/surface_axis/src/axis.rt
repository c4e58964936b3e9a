// The points of a parameter box: the closures of Soup::param_box of src/tessellate.rs.
ghost use Rattle.std.specs.Prelude.{◌≡◌, ◌≤◌, ◌<◌};
ghost use Rattle.solid_spec.specs.ParamBox as Box;
ghost use Rattle.surface_spec.specs.Faces.{face_point};
ghost use Rattle.surface_spec.specs.Surface.{line_at};

use math::Vec3;
use surface_spec::Line;

// Grid line i of an axis from lo to hi in n parts. A periodic axis ends where it starts.
pub fn coord(lo: f64, hi: f64, n: usize, periodic: bool, i: usize) -> f64
    requires n_in_bounds { n ≤ 1024 }
    requires i_in_bounds { i ≤ n }
    ensures { result ≡ Box.coord lo hi n periodic i }
{
    if i == n {
        if periodic { lo } else { hi }
    } else {
        lo + (hi - lo) * (i as f64) / (n as f64)
    }
}

pub fn line_at(l: Line, i: usize) -> f64
    requires { (l.n ≤ 1024) × (i ≤ l.n) }
    ensures { result ≡ line_at l i }
{
    coord(l.lo, l.hi, l.n, l.periodic, i)
}

// The point with val on the axis k, a on the next axis and b on the one after that.
pub fn face_point(k: usize, val: f64, a: f64, b: f64) -> Vec3
    requires { k < 3 }
    ensures { result ≡ face_point k val a b }
{
    if k == 0 {
        Vec3 { x: val, y: a, z: b }
    } else if k == 1 {
        Vec3 { x: b, y: val, z: a }
    } else {
        Vec3 { x: a, y: b, z: val }
    }
}
