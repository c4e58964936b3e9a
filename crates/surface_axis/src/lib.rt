// The grid lines and points of parameter boxes: src/tessellate.rs.
#![tactic(auto)]

mod axis;

pub use axis::{coord, face_point, line_at};
