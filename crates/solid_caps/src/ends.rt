// The caps of extruded_polygon and rotpoly of src/tessellate.rs, streamed into the welder. Their triangles are in a local array.
ghost use Rattle.std.specs.Prelude.{◌≡◌, ◌*◌, ◌/◌, ◌≤◌, length, is_some};
ghost use Rattle.std.specs.Option.{unwrap_or};
ghost use Rattle.mesh_balance_spec.specs.Buffer.{tris};
ghost use Rattle.weld.specs.Rep.{Ready};
ghost use Rattle.weld.specs.Welding.{held_by, Welds};
ghost use Rattle.solid_spec.specs.Polygons as Polygons;
ghost use Rattle.solid_caps.specs.Caps.{cap_of, caps_of};
ghost use Rattle.solid_caps.specs.Ends.{EndsWithin, points_at};

use solid_grid::Sheet;
use weld::Welding;

// A cap triangle in the column `near`, and turned round in the column `far`, if there is one.
fn weld_cap(
    w: &mut Welding<'_>,
    x: &Sheet<'_>,
    near: usize,
    far: Option<usize>,
    a: usize,
    b: usize,
    c: usize,
)
    requires ready { Ready (held_by w.old) }
    requires ends_within { EndsWithin x.now near far }
    ensures { Welds (cap_of (is_some far) (points_at x.now near) (points_at x.now (unwrap_or far 0)) (a, b, c)) w.old w.new }
{
    let an = x.point(a, near);
    let bn = x.point(b, near);
    let cn = x.point(c, near);
    weld_triangle::weld_triangle(w, an, bn, cn);
    match far {
        Some(far) => {
            let af = x.point(a, far);
            let cf = x.point(c, far);
            let bf = x.point(b, far);
            weld_triangle::weld_triangle(w, af, cf, bf);
        }
        None => {}
    }
}

// The cap triangles, three corner numbers each.
fn weld_caps(w: &mut Welding<'_>, x: &Sheet<'_>, caps: &[u32], near: usize, far: Option<usize>)
    requires ready { Ready (held_by w.old) }
    requires ends_within { EndsWithin x.now near far }
    ensures { Welds (caps_of (is_some far) (points_at x.now near) (points_at x.now (unwrap_or far 0)) (tris caps.now)) w.old w.new }
{
    let n = caps.len() / 3;
    for t in 0..n {
        let k = 3 * t;
        weld_cap(
            w,
            x,
            near,
            far,
            caps[k] as usize,
            caps[k + 1] as usize,
            caps[k + 2] as usize,
        );
    }
}

// The caps of a sheet over an outline's prepared corners, whose triangles fit NUMBERS numbers.
fn weld_sized<const NUMBERS: usize>(
    w: &mut Welding<'_>,
    x: &Sheet<'_>,
    near: usize,
    far: Option<usize>,
)
    requires ready { Ready (held_by w.old) }
    requires p_len_bound { (length x.now.corners.now ≤ 1024) × EndsWithin x.now near far × (3 * (length x.now.corners.now / 2) ≤ NUMBERS)
        × (NUMBERS ≤ 1536) }
    ensures { Welds (caps_of (is_some far) (points_at x.now near) (points_at x.now (unwrap_or far 0)) (Polygons.cap_triangles x.now.corners.now)) w.old w.new }
{
    let mut caps = [0u32; NUMBERS];
    let cut = outline_triangulate::triangulate_polygon(x.corners, &mut caps);
    let m = 3 * cut.triangles;
    weld_caps(w, x, &caps[..m], near, far);
}

// The same for all outlines. The caps of at most 64 corners go into a small array, which is cleared in less time.
pub fn weld_ends(w: &mut Welding<'_>, x: &Sheet<'_>, near: usize, far: Option<usize>)
    requires ready { Ready (held_by w.old) }
    requires p_len_bound { (length x.now.corners.now ≤ 1024) × EndsWithin x.now near far }
    ensures { Welds (caps_of (is_some far) (points_at x.now near) (points_at x.now (unwrap_or far 0)) (Polygons.cap_triangles x.now.corners.now)) w.old w.new }
{
    if x.corners.len() <= 128 {
        weld_sized::<192>(w, x, near, far);
    } else {
        weld_sized::<1536>(w, x, near, far);
    }
}
