// What the calls of a case do to the meshes A and B of a run, but for the library's own calls. There is no input or output here.
#![tactic(auto)]

mod agreement;
mod exchanging;
mod session;

pub use agreement::agreed;
pub use exchanging::exchange;
pub use session::{Answer, Session, after, begun, claimed_mesh, going, stopped};
