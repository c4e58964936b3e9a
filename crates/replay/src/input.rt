// Reading from standard input, in blocks. Each function answers whether the input had enough.
// Floats and words apart: one function over both would take the size of an item and what reads it, and be as long as the two.
ghost use Rattle.std.specs.Prelude.{◌≤◌, length};

// Fills b.
pub(crate) fn fill(b: &mut [u8]) -> bool {
    if b.len() == 0 {
        return true;
    }
    let n = io::read_full(0, b);
    n == b.len()
}

// Fills out with floats.
pub(crate) fn floats(out: &mut [f64]) -> bool {
    let mut buf = [0u8; 16384];
    for block in out.chunks_mut(2048) {
        let n = 8 * block.len();
        if !fill(&mut buf[..n]) {
            return false;
        }
        slice_byte_lists::get_floats(&buf[..n], block);
    }
    true
}

// Fills out with 32-bit numbers.
pub(crate) fn words(out: &mut [u32]) -> bool {
    let mut buf = [0u8; 16384];
    for block in out.chunks_mut(4096) {
        let n = 4 * block.len();
        if !fill(&mut buf[..n]) {
            return false;
        }
        slice_byte_lists::get_words(&buf[..n], block);
    }
    true
}

// Passes over n bytes.
fn skip(n: usize) -> bool {
    let mut buf = [0u8; 16384];
    for _ in 0..n / 16384 {
        if !fill(&mut buf) {
            return false;
        }
    }
    fill(&mut buf[..n % 16384])
}

// Passes over n floats, fewer than 2^32.
// One line each: as one function of an item's size it would need a clause that bounds the size.
pub(crate) fn skip_floats(n: usize) -> bool {
    if n < 4294967296 { skip(8 * n) } else { false }
}

// Passes over n 32-bit numbers, fewer than 2^32.
pub(crate) fn skip_words(n: usize) -> bool {
    if n < 4294967296 { skip(4 * n) } else { false }
}

// Reads the bytes of n operations, 136 each, to the start of buf.
pub(crate) fn op_bytes(n: usize, buf: &mut [u8]) -> bool {
    if buf.len() / 136 < n {
        return false;
    }
    fill(&mut buf[..136 * n])
}
