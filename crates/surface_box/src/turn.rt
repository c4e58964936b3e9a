// The bounds of a cylindrical box: box_shape of src/tessellate.rs.
ghost use Rattle.std.specs.Prelude.{◌≡◌};
ghost use Rattle.solid_spec.specs.Boxes as Boxes;

use ieee::TAU;
use math::Vec3;

// The high bound of a cylindrical box.
pub fn turned_to(full: bool, lo: Vec3, hi: Vec3) -> Vec3
    ensures { result ≡ Boxes.turned_to full lo hi }
{
    if full {
        Vec3 {
            x: hi.x,
            y: lo.y + TAU,
            z: hi.z,
        }
    } else {
        hi
    }
}
