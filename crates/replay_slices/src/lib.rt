// Lent slices before and between calls: filling, and exchange.
#![tactic(auto)]

mod exchange;
mod filling;

pub use exchange::swap;
pub use filling::{fill_floats, fill_slices, fill_words};
