// A face of one part on each axis and no map: one quad.
ghost use Rattle.std.specs.Prelude.{◌≡◌, false, not, ◌<◌};
ghost use Rattle.math.specs.Vec.{axis};
ghost use Rattle.mesh_balance_spec.specs.Grid.{quad_turned};
ghost use Rattle.surface_spec.specs.declared.Chart.TheVariants.{Cartesian};
ghost use Rattle.solid_spec.specs.ParamBox as Box;
ghost use Rattle.surface_spec.specs.Faces.{three, numbered_face};
ghost use Rattle.surface_spec.specs.Surface.{mapped};
ghost use Rattle.surface_quad.specs.Flat.{quad_of};

use math::Vec3;
use weld::Four;

// Grid line 0 of the axis k. Grid line 1 is hi.
fn first_line(lo: Vec3, hi: Vec3, k: usize) -> f64
    ensures { result ≡ Box.coord (axis lo k) (axis hi k) 1 false 0 }
{
    surface_axis::coord(lo.axis(k), hi.axis(k), 1, false, 0)
}

// A face's points in the order of its quad: on the low side the other way round.
fn in_order(side: bool, a: Vec3, b: Vec3, c: Vec3, d: Vec3) -> Four
    ensures { quad_of result ≡ quad_turned (not side) a b c d }
{
    if side {
        Four { a, b, c, d }
    } else {
        Four { a, b: d, c, d: b }
    }
}

// The face on the axis k: the low one, or where side says so the high one.
pub fn face(lo: Vec3, hi: Vec3, k: usize, side: bool) -> Four
    requires { k < 3 }
    ensures { quad_of result ≡ numbered_face lo hi (three 1 1 1) (three false false false) (mapped Cartesian) k side }
{
    let u = (k + 1) % 3;
    let v = (k + 2) % 3;
    let val = surface_box::end_of(lo, hi, k, side);
    let a = first_line(lo, hi, u);
    let b = first_line(lo, hi, v);
    let c = hi.axis(u);
    let d = hi.axis(v);
    in_order(
        side,
        surface_axis::face_point(k, val, a, b),
        surface_axis::face_point(k, val, c, b),
        surface_axis::face_point(k, val, c, d),
        surface_axis::face_point(k, val, a, d),
    )
}
