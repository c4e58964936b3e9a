// Little-endian numbers of 4 and 8 bytes in lent slices, and floats at places of such slices.
#![tactic(auto)]

mod bytes;
mod floats;

pub use bytes::{long_at, put_long, put_word, word_at};
pub use floats::{float_at, put_float};
