// Solids of several parts, each welded among its own vertices: the cases MultiBox and Wire of tessellate in src/tessellate.rs.
#![tactic(auto)]

mod multi_box;
mod wire;

pub use multi_box::weld_multi_box;
pub use wire::weld_wire;
