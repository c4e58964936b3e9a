// One field: a tag and the bytes of the file behind it.
ghost use Rattle.std.specs.Prelude.{◌≡◌};
ghost use Rattle.refusal.specs.Answer.{answer_of};
ghost use Rattle.fixture_spec.specs.Fields as Fields;

use fixture_layout::{layout_of, right_size};
use fixture_payload::{payload_first, payload_len, size_of};
use refusal::Refusal;

// Whether a tag is a solid's.
pub fn is_solid(tag: u8) -> bool
    ensures { result ≡ Fields.is_solid tag }
{
    (0x10 <= tag) & (tag <= 0x19)
}

fn known_tag(tag: u8) -> bool
    ensures { result ≡ Fields.known_tag tag }
{
    ((0x01 <= tag) & (tag <= 0x05)) | is_solid(tag)
}

// Whether the first byte of a payload is a known system, mark or kind, where its tag has one.
fn known_first(tag: u8, first: u8) -> bool
    ensures { result ≡ Fields.known_first tag first }
{
    if (0x02 <= tag) & (tag <= 0x04) {
        return first <= 1;
    }
    if tag == 0x05 {
        return (1 <= first) & (first <= 8);
    }
    true
}

// Refusal 10 as far as the bytes are there, then 9.
pub fn field_refusal(tag: u8, after: &[u8]) -> Result<(), Refusal>
    ensures { answer_of result ≡ Fields.field_refusal tag after.now }
{
    if !known_tag(tag) {
        return Err(Refusal::UnknownField);
    }
    if after.len() < 2 {
        return Err(Refusal::BrokenField);
    }
    let n = size_of(after);
    let there = payload_len(after);
    let first = payload_first(after);
    if (0 < there) & !known_first(tag, first) {
        return Err(Refusal::UnknownField);
    }
    if after.len() < 2 + n {
        return Err(Refusal::BrokenField);
    }
    if !right_size(layout_of(tag, first), n) {
        return Err(Refusal::BrokenField);
    }
    Ok(())
}
