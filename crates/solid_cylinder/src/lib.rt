// Cylinders and cylindrical shells, streamed into the welder: cylinder of src/tessellate.rs.
#![tactic(auto)]

mod cylinder;

pub use cylinder::weld_cylinder;
