// The end of the call `tessellate`: the welded mesh turned outward, and under the operations.
#![tactic(auto)]

mod place;
mod turn;

pub use place::complete;
