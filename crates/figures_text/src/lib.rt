// Text of floats, counts and measures, put into a lent slice of bytes from place at on, as far as it fits.
// Each function answers the place after its text.
#![tactic(auto)]

mod counts;
mod floats;

pub use counts::{put_count, put_counts, put_measured};
pub use floats::put_float;
