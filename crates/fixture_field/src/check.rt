// All fields of a file, in order.
ghost use Rattle.std.specs.Prelude.{◌≡◌};
ghost use Rattle.refusal.specs.Answer.{answer_of};
ghost use Rattle.fixture_spec.specs.Fields as Fields;

use crate::field::{field_refusal, is_solid};
use fixture_payload::size_of;
use refusal::Refusal;

// Refuses a file by 9, 10 or 11.
pub fn check_fields(file: &[u8]) -> Result<(), Refusal>
    ensures { answer_of result ≡ Fields.file_refusal file.now }
{
    if 65535 < file.len() {
        return Err(Refusal::BrokenField);
    }
    let mut at = 0;
    let mut solid = false;
    // A `while`: a field says itself how far the next one is, so no range counts them; an iterator of fields would be this step and its laws.
    while at < file.len() {
        let tag = file[at];
        let b = at + 1;
        let after = &file[b..];
        field_refusal(tag, after)?;
        solid = solid | is_solid(tag);
        at = b + 2 + size_of(after);
    }
    if solid { Ok(()) } else { Err(Refusal::NoSolid) }
}
