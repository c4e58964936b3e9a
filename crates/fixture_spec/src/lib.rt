// Fixtures in a file, as definitions: its fields, its solids, their mesh and the planner's bytes.
#![tactic(auto)]

// What a payload is made of: single bytes first, then single floats, then a list whose items have so many floats (0: no list).
#[derive(Clone, Copy)]
pub struct Layout {
    pub bytes: u8,
    pub floats: u8,
    pub item: u8,
}
