// A mesh in lent slices: three floats a vertex, three numbers a triangle, and its record by value: the two counts and the box of the vertices.
// The calls edit it or measure it. Each checks the mesh first, and a refusal changes nothing.
// The record and its slices stay apart: the measures and flip lend slices to read only, and one struct of `&mut` would lend them to write.
#![tactic(auto)]

mod edit;

pub use edit::{append, flip, record_after};
pub use mesh_check::TriMesh;
pub use mesh_measures::{
    area, bits_or_zero, bounding_box, box_or_zeros, enclosed_volume, signed_volume,
};
pub use mesh_transform::transform;
