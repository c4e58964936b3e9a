// The points of a sphere: the closure of sphere of src/tessellate.rs.
#![tactic(auto)]

ghost use Rattle.std.specs.Prelude.{◌≡◌, ◌≤◌, ◌<◌};
ghost use Rattle.solid_spec.specs.Sphere as Sphere;

use ieee::{PI, TAU};
use math::Vec3;
use trig_spec::SinCos;

// The sine and cosine of row i of nt, exact at both poles.
pub fn latitude(nt: usize, i: usize) -> SinCos
    requires nt_in_bounds { nt ≤ 1024 }
    requires i_in_bounds { i ≤ nt }
    ensures { result ≡ Sphere.latitude nt i }
{
    if i == 0 {
        SinCos { sin: 0.0, cos: 1.0 }
    } else if i == nt {
        SinCos {
            sin: 0.0,
            cos: -1.0,
        }
    } else {
        trig::sin_cos(PI * (i as f64) / (nt as f64))
    }
}

// The sine and cosine of segment j of np. The last one is the first.
pub fn longitude(np: usize, j: usize) -> SinCos
    requires np_positive { 0 < np }
    requires np_in_bounds { np ≤ 1024 }
    ensures { result ≡ Sphere.longitude np j }
{
    let k = j % np;
    trig::sin_cos(TAU * (k as f64) / (np as f64))
}

// c + Vec3::new(st * cp, st * sp, ct) * r.
pub fn on_sphere(c: Vec3, r: f64, t: SinCos, p: SinCos) -> Vec3
    ensures { result ≡ Sphere.on_sphere c r t p }
{
    let n = Vec3 {
        x: t.sin * p.cos,
        y: t.sin * p.sin,
        z: t.cos,
    };
    c + n * r
}
