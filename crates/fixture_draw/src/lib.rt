// The solids of a file drawn one after the other into the planner's output.
#![tactic(auto)]

mod all;
mod next;

pub use all::draw_all;
use shape::{CoordSystem, TessellationOptions};

// What is carried from solid to solid: the place in the file, the options and the default system that hold there, and the counts of the mesh so far.
#[derive(Clone, Copy)]
pub struct Walk {
    pub at: usize,
    pub options: TessellationOptions,
    pub default: CoordSystem,
    pub vertices: usize,
    pub triangles: usize,
}
