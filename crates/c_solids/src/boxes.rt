// The box of a mesh as six floats: least x, y, z, then greatest x, y, z.
ghost use Rattle.std.specs.Prelude.{◌≡◌};
ghost use Rattle.c_solids.specs.Boxes.{box_in, six_of};

use math::{BoundingBox, Vec3};

// The box of six floats.
pub(crate) fn box_in(six: &[f64; 6]) -> BoundingBox
    ensures { result ≡ box_in six.now }
{
    BoundingBox {
        min: Vec3 {
            x: six[0],
            y: six[1],
            z: six[2],
        },
        max: Vec3 {
            x: six[3],
            y: six[4],
            z: six[5],
        },
    }
}

// Writes the six floats of a box.
pub(crate) fn put_box(six: &mut [f64; 6], b: BoundingBox)
    ensures { six.new ≡ six_of b }
{
    let low = b.min;
    let high = b.max;
    *six = [low.x, low.y, low.z, high.x, high.y, high.z];
}
