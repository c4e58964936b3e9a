// The point of a surface at two grid indices, and the tables of sines and cosines that it reads: the closures that
// src/tessellate.rs hands to `Soup::grid`, by cases.
#![tactic(auto)]

mod point;
mod turns;

pub use point::surface_point;
pub use turns::{Turns, fill_entries};
