// The axes, bounds and faces of a parameter box, before any point is welded: Soup::param_box and box_shape of src/tessellate.rs.
#![tactic(auto)]

mod faces;
mod turn;

pub use faces::{end_of, has_face, line_of};
pub use turn::turned_to;
