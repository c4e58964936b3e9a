// Spheres and spherical shells, streamed into the welder: sphere of src/tessellate.rs.
#![tactic(auto)]

mod sphere;

pub use sphere::{weld_sphere, weld_spherical_shell};
