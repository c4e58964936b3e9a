// A face of a box of one part on each axis: the points of its one quad, and guesses at their numbers.
#![tactic(auto)]

mod flat;
mod guessing;

pub use flat::face;
pub use guessing::guesses;
