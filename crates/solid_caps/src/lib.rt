// The caps of an outline, streamed into the welder: their loops in extruded_polygon and rotpoly of src/tessellate.rs.
#![tactic(auto)]

mod ends;

pub use ends::weld_ends;
