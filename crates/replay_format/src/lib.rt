// The byte format of case files (tests/README.md): the head of a case, operations.
#![tactic(auto)]

mod head;
mod ops;

pub use head::{Head, head_of};
pub use ops::op_at;
