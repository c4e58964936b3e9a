// Little-endian numbers of 4 and 8 bytes.
ghost use Rattle.std.specs.Prelude.{◌≡◌, ◌+◌, ◌<◌, ◌≤◌, ◌%◌, length};
ghost use Rattle.slice_bytes.specs.Bytes.{word_at, long_at, with_word, with_long};

// The 32-bit number at place at.
#[tactic(auto, unfolding(crate::specs::Bytes::word_at))]
pub fn word_at(b: &[u8], at: usize) -> u32
    requires { at + 4 ≤ length b.now }
    ensures { result ≡ word_at b.now at }
{
    u32::from_le_bytes([b[at], b[at + 1], b[at + 2], b[at + 3]])
}

// The 64-bit number at place at.
#[tactic(auto, unfolding(crate::specs::Bytes::long_at))]
pub fn long_at(b: &[u8], at: usize) -> u64
    requires { at + 8 ≤ length b.now }
    ensures { result ≡ long_at b.now at }
{
    u64::from(word_at(b, at)) + 4294967296 * u64::from(word_at(b, at + 4))
}

// The lowest byte of a number.
fn low_byte(w: u64) -> u8
    ensures { result ≡ w % 256 }
{
    (w % 256) as u8
}

// Writes the low 32 bits of a number at place at.
fn put_low(b: &mut [u8], at: usize, w: u64)
    requires { at + 4 ≤ length b.old }
    ensures { b.new ≡ with_word b.old at w }
{
    b[at] = low_byte(w);
    b[at + 1] = low_byte(w / 256);
    b[at + 2] = low_byte(w / 65536);
    b[at + 3] = low_byte(w / 16777216);
}

// Writes a 32-bit number at place at.
pub fn put_word(b: &mut [u8], at: usize, w: u32)
    requires { at + 4 ≤ length b.old }
    ensures { b.new ≡ with_word b.old at w }
{
    put_low(b, at, u64::from(w))
}

// Writes a 64-bit number at place at.
pub fn put_long(b: &mut [u8], at: usize, w: u64)
    requires { at + 8 ≤ length b.old }
    ensures { b.new ≡ with_long b.old at w }
{
    put_low(b, at, w);
    put_low(b, at + 4, w / 4294967296);
}
