// The fields of a fixture's file, and the refusals 9, 10 and 11.
#![tactic(auto)]

mod check;
mod field;

pub use check::check_fields;
pub use field::is_solid;
