// The ear clipper over lent memory (src/tessellate.rs, triangulate_polygon).
#![tactic(auto)]

mod lists;
mod passes;

use outline_ears::Remaining;
pub use passes::triangulate_polygon;

// How many triangles were given, and how many corners were removed singly.
#[derive(Clone, Copy)]
pub struct Cut {
    pub triangles: usize,
    pub removed: usize,
}

// What the passes leave: the corners that remain, three at most, and the counts.
#[derive(Clone, Copy)]
pub(crate) struct Trimmed {
    left: Remaining,
    cut: Cut,
}
