// Outlines that are extruded or rotated, welded with their caps: extruded_polygon and rotpoly of src/tessellate.rs.
#![tactic(auto)]

mod outlines;

pub use outlines::{weld_extruded, weld_rotated};
