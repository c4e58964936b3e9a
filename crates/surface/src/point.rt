// The point of a surface at the grid indices i and j, by cases. Sines and cosines come from tables.
ghost use Rattle.std.specs.Prelude.{◌≡◌, ◌*◌, ◌%◌, ◌≤◌, ◌<◌, length};
ghost use Rattle.surface_spec.specs.declared.Surface.TheVariants.{Face};
ghost use Rattle.surface_spec.specs.Surface.{surface_at};
ghost use Rattle.surface.specs.Within.{FaceWithin, ExtrudedWithin, Within};
ghost use Rattle.surface.specs.Turns.{RoundTabled, Tabled};
ghost use Rattle.surface.specs.Pieces as Pieces;

use math::Vec3;
use surface_spec::{Chart, Line, Surface};
use trig_spec::SinCos;

// A point in cylindrical coordinates: the radius x, the sine and cosine of the angle, the height z.
#[derive(Clone, Copy)]
pub struct Polar {
    pub t: SinCos,
    pub x: f64,
    pub z: f64,
}

// i % len, with no division where i is below len.
fn round(i: usize, len: usize) -> usize
    requires { 0 < len }
    ensures { result ≡ i % len }
{
    if i < len { i } else { i % len }
}

// The point of a face whose middle axis is an angle.
// k, val, u and v are fields of Surface::Face, taken apart once in surface_point: a struct of them for two functions would be taken apart again.
fn polar_at(
    k: usize,
    val: f64,
    u: Line,
    v: Line,
    rows: &[SinCos],
    cols: &[SinCos],
    i: usize,
    j: usize,
) -> Polar
    requires face_within { FaceWithin k u v i j }
    requires round_tabled { RoundTabled k u v rows.now cols.now i j }
    ensures { result ≡ Pieces.polar_on k val u v i j }
{
    if k == 0 {
        Polar {
            t: rows[i],
            x: val,
            z: surface_axis::line_at(v, j),
        }
    } else if k == 1 {
        Polar {
            t: trig::sin_cos(val),
            x: surface_axis::line_at(v, j),
            z: surface_axis::line_at(u, i),
        }
    } else {
        Polar {
            t: cols[j],
            x: surface_axis::line_at(u, i),
            z: val,
        }
    }
}

fn face_at(
    chart: Chart,
    k: usize,
    val: f64,
    u: Line,
    v: Line,
    rows: &[SinCos],
    cols: &[SinCos],
    i: usize,
    j: usize,
) -> Vec3
    requires face_within { FaceWithin k u v i j }
    requires tabled { Tabled (Face chart k val u v) rows.now cols.now i j }
    ensures { result ≡ Pieces.on_face chart k val u v i j }
{
    match chart {
        Chart::Cartesian => surface_axis::face_point(
            k,
            val,
            surface_axis::line_at(u, i),
            surface_axis::line_at(v, j),
        ),
        Chart::Cylindrical => {
            let p = polar_at(k, val, u, v, rows, cols, i, j);
            surface_coords::cylindrical_by(p.t, p.x, p.z)
        }
        Chart::Around { a, d, e1, e2 } => {
            let p = polar_at(k, val, u, v, rows, cols, i, j);
            surface_coords::around_axis_by(a, d, e1, e2, p.t, p.x, p.z)
        }
    }
}

fn extruded_at(corners: &[f64], n: usize, len: usize, lo: f64, hi: f64, i: usize, j: usize) -> Vec3
    requires { ExtrudedWithin corners.now n len }
    ensures { result ≡ Pieces.on_extruded corners.now n len lo hi i j }
{
    let c = outline::corner(corners, round(i, len));
    surface_outline::plane_point(n, c, surface_outline::height(lo, hi, j))
}

fn rotated_at(corners: &[f64], a: usize, q: usize, len: usize, t: SinCos, i: usize) -> Vec3
    requires len_positive { 0 < len }
    requires corners_held { 2 * len ≤ length corners.now }
    ensures { result ≡ Pieces.on_rotated corners.now a q len t i }
{
    let c = outline::corner(corners, round(i, len));
    surface_outline::spun(a, q, c, t)
}

// The point (i, j). rows has the sines and cosines that go by i, cols those that go by j.
pub fn surface_point(
    s: Surface,
    corners: &[f64],
    rows: &[SinCos],
    cols: &[SinCos],
    i: usize,
    j: usize,
) -> Vec3
    requires within { Within corners.now s i j }
    requires tabled { Tabled s rows.now cols.now i j }
    ensures { result ≡ surface_at corners.now s i j }
{
    match s {
        Surface::Face {
            chart,
            k,
            val,
            u,
            v,
        } => face_at(chart, k, val, u, v, rows, cols, i, j),
        Surface::Sphere { c, r, nt, np } => surface_sphere::on_sphere(c, r, rows[i], cols[j]),
        Surface::Extruded { n, len, lo, hi } => extruded_at(corners, n, len, lo, hi, i, j),
        Surface::Rotated {
            a,
            q,
            len,
            full,
            start,
            span,
            n,
        } => rotated_at(corners, a, q, len, cols[j], i),
    }
}
