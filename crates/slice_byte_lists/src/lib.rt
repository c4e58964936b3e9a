// Lists of floats and of 32-bit numbers, one after the other in bytes.
// Floats and numbers have loops of their own, to read and to write: each is one line, and a loop over both needs a closure's clauses, twice its length.
#![tactic(auto)]

ghost use Rattle.std.specs.Prelude.{◌≡◌, ◌*◌, ◌≤◌, length};
ghost use Rattle.slice_byte_lists.specs.Lists.{floats_of, words_of, with_floats, with_words};

use slice_bytes::{float_at, put_float, put_word, word_at};

// Reads as many floats as out has.
pub fn get_floats(b: &[u8], out: &mut [f64])
    requires { 8 * length out.old ≤ length b.now }
    ensures { out.new ≡ floats_of (length out.old) b.now }
{
    for i in 0..out.len() {
        out[i] = float_at(b, 8 * i);
    }
}

// Reads as many 32-bit numbers as out has.
pub fn get_words(b: &[u8], out: &mut [u32])
    requires { 4 * length out.old ≤ length b.now }
    ensures { out.new ≡ words_of (length out.old) b.now }
{
    for i in 0..out.len() {
        out[i] = word_at(b, 4 * i);
    }
}

// Writes the floats of v.
pub fn put_floats(v: &[f64], b: &mut [u8])
    requires { 8 * length v.now ≤ length b.old }
    ensures { b.new ≡ with_floats (length v.now) v.now b.old }
{
    for i in 0..v.len() {
        put_float(b, 8 * i, v[i]);
    }
}

// Writes the 32-bit numbers of v.
pub fn put_words(v: &[u32], b: &mut [u8])
    requires { 4 * length v.now ≤ length b.old }
    ensures { b.new ≡ with_words (length v.now) v.now b.old }
{
    for i in 0..v.len() {
        put_word(b, 4 * i, v[i]);
    }
}
