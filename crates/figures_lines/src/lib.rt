// Lines of the program `figures` on arcs, roots, meshes and their measures, put into a lent slice of bytes from place at on, as far as they fit. Each
// function answers the place after its text.
#![tactic(auto)]

mod arcs_and_roots;
mod meshes;

pub use arcs_and_roots::{put_arc, put_root};
pub use meshes::{put_border, put_bounds, put_first, put_measures};
