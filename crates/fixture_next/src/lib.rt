// The solids of a fixture's file, one after the other, each with its settings and its operations.
#![tactic(auto)]

mod job;
mod next;
mod ops;

pub use job::{NextJob, next_job};
pub use ops::next_ops;
