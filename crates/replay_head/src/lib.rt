// A case by the bytes of its head: its shape and coordinate systems, its operations, and what it asks for. There is no input or output here.
#![tactic(auto)]

mod asked;
mod case;
mod kept;
mod shapes;

pub use asked::{allowed, list_floats, passed};
pub use case::{Case, case_of, none, operations};
pub use shapes::{own_system, system};
