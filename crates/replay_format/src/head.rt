// The head of a case: its first 144 bytes. From byte 48 on stand the shape's numbers or, where a mesh is loaded, the box claimed for it.
// Bytes 128 to 143 are not read.
ghost use Rattle.std.specs.Prelude.{◌≡◌, ◌≤◌, length};
ghost use Rattle.replay_format.specs.Layout.{bounds_of, head_of};

use math::BoundingBox;
use transform_bytes::vec_at;

#[derive(Clone, Copy)]
pub struct Head {
    pub what: u8,
    pub shape: u8,
    pub own_system: u8,
    pub default_system: u8,
    pub degrees: u8,
    pub norm_dir: u8,
    pub rot_axis_dir: u8,
    pub segments: u32,
    pub sphere_rings: u32,
    pub vertex_floats: u32,
    pub triangle_numbers: u32,
    pub work_numbers: u32,
    pub op_count: u32,
    pub list_floats: u32,
    pub loaded_numbers: u32,
    pub vertex_count: u32,
    pub triangle_count: u32,
    pub bounds: BoundingBox,
}

// The box of six floats from place 48 on: least x, y, z, then greatest x, y, z. A case other than a load has its shape's numbers there.
fn bounds_of(b: &[u8]) -> BoundingBox
    requires { 96 ≤ length b.now }
    ensures { result ≡ bounds_of b.now }
{
    BoundingBox {
        min: vec_at(b, 48),
        max: vec_at(b, 72),
    }
}

// The head of a case, from its first 144 bytes.
pub fn head_of(b: &[u8]) -> Head
    requires { 144 ≤ length b.now }
    ensures { result ≡ head_of b.now }
{
    Head {
        what: b[0],
        shape: b[1],
        own_system: b[2],
        default_system: b[3],
        degrees: b[4],
        norm_dir: b[5],
        rot_axis_dir: b[6],
        segments: slice_bytes::word_at(b, 8),
        sphere_rings: slice_bytes::word_at(b, 12),
        vertex_floats: slice_bytes::word_at(b, 16),
        triangle_numbers: slice_bytes::word_at(b, 20),
        work_numbers: slice_bytes::word_at(b, 24),
        op_count: slice_bytes::word_at(b, 28),
        list_floats: slice_bytes::word_at(b, 32),
        loaded_numbers: slice_bytes::word_at(b, 36),
        vertex_count: slice_bytes::word_at(b, 40),
        triangle_count: slice_bytes::word_at(b, 44),
        bounds: bounds_of(b),
    }
}
