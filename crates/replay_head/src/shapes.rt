// The shape of a case, and its coordinate systems.
ghost use Rattle.std.specs.Prelude.{◌≡◌, ◌≤◌, length};
ghost use Rattle.replay_head.specs.Shapes.{system_of, own_system_of, shape_in};

use replay_format::Head;
use shape::{CoordSystem, Shape};

// The default system.
// Not From<u8> for CoordSystem: a byte is a system in more than one way (1 is the Cartesian one in own_system).
pub fn system(x: u8) -> CoordSystem
    ensures { result ≡ system_of x }
{
    if x == 1 {
        CoordSystem::Cylindrical
    } else {
        CoordSystem::Cartesian
    }
}

// The system of its own, or none.
pub fn own_system(x: u8) -> Option<CoordSystem>
    ensures { result ≡ own_system_of x }
{
    match x {
        0 => None,
        1 => Some(CoordSystem::Cartesian),
        _ => Some(CoordSystem::Cylindrical),
    }
}

// The shape of a case. Its numbers start at byte 48 of the head.
// Not From: a shape is read of the head and of its bytes, under a requires, which a From has no place for.
pub fn shape_of(h: Head, head: &[u8]) -> Shape
    requires { 128 ≤ length head.now }
    ensures { result ≡ shape_in h head.now }
{
    let mut numbers = [0.0; 10];
    slice_byte_lists::get_floats(&head[48..], &mut numbers);
    shape_fields::shape_of(h.shape, h.norm_dir, h.rot_axis_dir, &numbers)
}
