// One field of a fixture's file: its solid, its operation, and what it sets.
#![tactic(auto)]

mod field;
mod held;
mod read;

pub use field::{SolidField, solid_at};
pub use held::settings_after;
pub use read::{read_op, solid_of};
use shape::{CoordSystem, TessellationOptions};

// What the fields so far have set for the next solid; of its operations the count.
#[derive(Clone, Copy)]
pub struct Settings {
    pub options: TessellationOptions,
    pub default: CoordSystem,
    pub own: Option<CoordSystem>,
    pub degrees: bool,
    pub count: usize,
}
