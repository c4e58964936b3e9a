// extruded_polygon and rotpoly of src/tessellate.rs, streamed into the welder. The prepared corners are in local arrays.
ghost use Rattle.std.specs.Prelude.{◌≡◌, ◌+◌, ◌≤◌, ◌<◌, length};
ghost use Rattle.weld.specs.Rep.{Ready};
ghost use Rattle.weld.specs.Welding.{held_by, Welds};
ghost use Rattle.solid_spec.specs.Outline as Outline;
ghost use Rattle.solid_spec.specs.Polygons as Polygons;
ghost use Rattle.solid_outline.specs.Turned.{turn_span, TurnWithin, turn_of};

use ieee::TAU;
use solid_grid::Sheet;
use surface::Turns;
use surface_spec::Surface;
use trig_spec::SinCos;
use weld::Welding;

// extruded_polygon from the prepared corners on.
fn weld_extruded_from(w: &mut Welding<'_>, n: usize, p: &[f64], lo: f64, hi: f64)
    requires ready { Ready (held_by w.old) }
    requires n_bound { (n < 3) × (length p.now ≤ 1024) }
    ensures { Welds (Outline.extruded_from n p.now (Polygons.cap_triangles p.now) lo hi) w.old w.new }
{
    let len = p.len() / 2;
    if len < 3 {
        return;
    }
    let s = Surface::Extruded { n, len, lo, hi };
    let x = Sheet {
        s,
        corners: p,
        rows: &[],
        cols: &[],
    };
    if hi != lo {
        solid_caps::weld_ends(w, &x, 1, Some(0));
        let mut numbers = [0usize; 2];
        solid_grid::weld_grid(w, &x, &mut numbers, len, 1, false);
    } else {
        solid_caps::weld_ends(w, &x, 1, None);
    }
}

// extruded_polygon of an outline whose prepared corners fit FLOATS floats.
fn weld_sized<const FLOATS: usize>(w: &mut Welding<'_>, n: usize, list: &[f64], lo: f64, hi: f64)
    requires ready { Ready (held_by w.old) }
    requires n_bound { (n < 3) × (length list.now ≤ 1024) × (length list.now ≤ FLOATS) × (FLOATS ≤ 1024) }
    ensures { Welds (Polygons.extruded_polygon n list.now lo hi) w.old w.new }
{
    let mut corners = [0.0; FLOATS];
    let len = outline_winding::ccw_polygon(list, &mut corners);
    let m = 2 * len;
    weld_extruded_from(w, n, &corners[..m], lo, hi);
}

// extruded_polygon. At most 64 corners go into a small array, which is cleared in less time.
pub fn weld_extruded(w: &mut Welding<'_>, n: usize, list: &[f64], lo: f64, hi: f64)
    requires ready { Ready (held_by w.old) }
    requires n_bound { (n < 3) × (length list.now ≤ 1024) }
    ensures { Welds (Polygons.extruded_polygon n list.now lo hi) w.old w.new }
{
    if list.len() <= 128 {
        weld_sized::<128>(w, n, list, lo, hi);
    } else {
        weld_sized::<1024>(w, n, list, lo, hi);
    }
}

// The span of which the arc's segments are counted.
fn turn_span(full: bool, span: f64) -> f64
    ensures { result ≡ turn_span full span }
{
    if full { TAU } else { span }
}

// The sides of a rotated outline, and its ends where the turn is not full.
fn weld_turned(w: &mut Welding<'_>, x: &Sheet<'_>, len: usize, n: usize, full: bool)
    requires ready { Ready (held_by w.old) }
    requires turn_within { TurnWithin x.now len n }
    ensures { Welds (turn_of x.now.corners.now x.now.s len n full) w.old w.new }
{
    let mut numbers = [0usize; 1025];
    solid_grid::weld_grid(w, x, &mut numbers, len, n, true);
    if !full {
        solid_caps::weld_ends(w, x, 0, Some(n));
    }
}

// rotpoly from the prepared corners on.
fn weld_rotated_from(
    w: &mut Welding<'_>,
    a: usize,
    q: usize,
    p: &[f64],
    start: f64,
    stop: f64,
    segments: usize,
)
    requires ready { Ready (held_by w.old) }
    requires segments_bound { (segments ≤ 1024) × (length p.now ≤ 1024) }
    ensures { Welds (Outline.rotated_from a q p.now (Polygons.cap_triangles p.now) start stop segments) w.old w.new }
{
    let len = p.len() / 2;
    if len < 3 {
        return;
    }
    let span = stop - start;
    let full = shape_arc::is_full(ieee::abs(span));
    let n = shape_arc::arc_segments(segments, turn_span(full, span));
    let s = Surface::Rotated {
        a,
        q,
        len,
        full,
        start,
        span,
        n,
    };
    let mut cols = [SinCos { sin: 0.0, cos: 0.0 }; 1025];
    let t = Turns::Angles {
        full,
        start,
        span,
        n,
    };
    surface::fill_entries(t, n, &mut cols);
    let x = Sheet {
        s,
        corners: p,
        rows: &[],
        cols: &cols,
    };
    weld_turned(w, &x, len, n, full);
}

// Whether the corners are swapped to (radial, axial): unless the plane's first axis is the radial one.
fn swaps(a: u8, normal: u8, q: usize) -> bool
    requires { q ≡ Polygons.radial_axis a normal }
    ensures { result ≡ Polygons.swaps a normal }
{
    outline_winding::plane_axes(normal).u != q
}

pub fn weld_rotated(
    w: &mut Welding<'_>,
    a: u8,
    normal: u8,
    list: &[f64],
    start: f64,
    stop: f64,
    segments: usize,
)
    requires ready { Ready (held_by w.old) }
    requires segments_bound { (segments ≤ 1024) × (length list.now ≤ 1024) × (a + normal ≤ 3) }
    ensures { Welds (Polygons.rotpoly a normal list.now start stop segments) w.old w.new }
{
    let mut corners = [0.0; 1024];
    let axis = a as usize;
    let q = 3 - axis - (normal as usize);
    let swap = swaps(a, normal, q);
    let len = outline_winding::prepare(list, swap, &mut corners);
    let m = 2 * len;
    weld_rotated_from(w, axis, q, &corners[..m], start, stop, segments);
}
