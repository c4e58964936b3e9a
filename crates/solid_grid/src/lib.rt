// Grids over surfaces, streamed into the welder: Soup::quad and Soup::grid of src/tessellate.rs.
#![tactic(auto)]

mod grid;
mod guesses;
mod sheet;

pub use grid::weld_grid;
pub use sheet::Sheet;
