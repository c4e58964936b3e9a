// Writing to standard output, in blocks. Each function answers whether all was written.
// Floats and words apart: one function over both would take the size of an item and what writes it, and be as long as the two.
ghost use Rattle.std.specs.Prelude.{◌≡◌, ◌+◌, ◌≤◌, min, length};

use math::{BoundingBox, Vec3};

// A count as a 32-bit number.
pub(crate) fn count(n: usize) -> u32
    ensures { result ≡ min n 4294967295 }
{
    if n < 4294967295 { n as u32 } else { 4294967295 }
}

pub(crate) fn word(w: u32) -> bool {
    let mut b = [0u8; 4];
    slice_bytes::put_word(&mut b, 0, w);
    io::write_all(1, &b)
}

pub(crate) fn three_words(p: u32, q: u32, r: u32) -> bool {
    let mut b = [0u8; 12];
    slice_bytes::put_word(&mut b, 0, p);
    slice_bytes::put_word(&mut b, 4, q);
    slice_bytes::put_word(&mut b, 8, r);
    io::write_all(1, &b)
}

pub(crate) fn floats(v: &[f64]) -> bool {
    let mut buf = [0u8; 16384];
    for block in v.chunks(2048) {
        let n = 8 * block.len();
        slice_byte_lists::put_floats(block, &mut buf);
        if !io::write_all(1, &buf[..n]) {
            return false;
        }
    }
    true
}

// Writes the bounds of a box: least x, y, z, then greatest x, y, z.
pub(crate) fn bounds(b: BoundingBox) -> bool {
    let low = b.min;
    let high = b.max;
    let six = [low.x, low.y, low.z, high.x, high.y, high.z];
    floats(&six)
}

pub(crate) fn words(v: &[u32]) -> bool {
    let mut buf = [0u8; 16384];
    for block in v.chunks(4096) {
        let n = 4 * block.len();
        slice_byte_lists::put_words(block, &mut buf);
        if !io::write_all(1, &buf[..n]) {
            return false;
        }
    }
    true
}

fn put_vec(b: &mut [u8; 76], at: usize, p: Vec3)
    requires { at + 24 ≤ 76 }
{
    slice_bytes::put_float(b, at, p.x);
    slice_bytes::put_float(b, at + 8, p.y);
    slice_bytes::put_float(b, at + 16, p.z);
}

fn write_measures(b: &[u8; 76]) -> bool {
    io::write_all(1, b)
}

// The answer of the measures: a refusal, three numbers by their bits, and the box.
pub(crate) fn measured(
    why: u32,
    volume: u64,
    enclosed: u64,
    area: u64,
    bounds: BoundingBox,
) -> bool {
    let low = bounds.min;
    let high = bounds.max;
    let mut b = [0u8; 76];
    slice_bytes::put_word(&mut b, 0, why);
    slice_bytes::put_long(&mut b, 4, volume);
    slice_bytes::put_long(&mut b, 12, enclosed);
    slice_bytes::put_long(&mut b, 20, area);
    put_vec(&mut b, 28, low);
    put_vec(&mut b, 52, high);
    write_measures(&b)
}
