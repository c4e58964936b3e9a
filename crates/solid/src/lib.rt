// Each solid of tessellate in src/tessellate.rs, streamed into the welder.
#![tactic(auto)]

mod outlines;
mod shapes;
mod single;
mod tubes;

pub use shapes::weld_shape;
