// The field of a solid.
ghost use Rattle.fixture_solid.specs.Field as Field;

use crate::read::solid_of;
use fixture_layout::{fixed_bytes, layout_of};
use fixture_payload::payload_at;
use shape::Shape;

// Its shape, where its list starts and how many floats that has, and the place of the next field.
#[derive(Clone, Copy)]
pub struct SolidField {
    pub shape: Shape,
    pub list_at: usize,
    pub list_floats: usize,
    pub next: usize,
}

// The field at a place.
pub fn solid_at(file: &[u8], at: usize) -> SolidField
    requires { Field.SolidHere file.now at }
    ensures { Field.IsField file.now at result }
{
    let tag = file[at];
    let p = payload_at(file, at);
    let n = p.len();
    let a = at + 3;
    let fixed = fixed_bytes(layout_of(tag, 0));
    SolidField {
        shape: solid_of(tag, p),
        list_at: a + fixed,
        list_floats: (n - fixed) / 8,
        next: a + n,
    }
}
