// The solids, the mesh calls and the welder as C functions, for the programs in tests/ alone: they are no interface for users.
// A slice is a pointer and a length to such a program. Counts and the box go through references, refusals are answered by their numbers.
#![tactic(auto)]

mod boxes;
pub mod meshes;
pub mod solids;
pub mod soup;
mod told;
