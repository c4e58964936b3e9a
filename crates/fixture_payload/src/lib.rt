// The payload of a field, from the bytes behind its tag: its length, its first byte, all of it.
// No struct of a field: its tag, length and payload are read from the file's bytes at its place, so there is nothing to hold beside the place.
#![tactic(auto)]

ghost use Rattle.std.specs.Prelude.{◌≡◌, ◌+◌, ◌<◌, ◌≤◌, length, get_or, drop};
ghost use Rattle.fixture_spec.specs.Fields as Fields;

// The number of two bytes at place at.
pub fn count_at(b: &[u8], at: usize) -> usize
    requires { at + 2 ≤ length b.now }
    ensures { (result ≡ Fields.count_at b.now at) × (result < 65536) }
{
    let high = at + 1;
    usize::from(b[at]) + 256 * usize::from(b[high])
}

// The length of the payload, from the two bytes behind the tag.
pub fn size_of(after: &[u8]) -> usize
    requires { 2 ≤ length after.now }
    ensures { (result ≡ Fields.size_of after.now) × (result < 65536) }
{
    count_at(after, 0)
}

// How many bytes of the payload the file has.
pub fn payload_len(after: &[u8]) -> usize
    requires { 2 ≤ length after.now }
    ensures { result ≡ length (Fields.payload_of after.now) }
{
    let n = size_of(after);
    let rest = after.len() - 2;
    if n < rest { n } else { rest }
}

// The first byte of the payload, 0 where the file has none.
pub fn payload_first(after: &[u8]) -> u8
    requires { 2 ≤ length after.now }
    ensures { result ≡ get_or (Fields.payload_of after.now) 0 0 }
{
    if payload_len(after) == 0 { 0 } else { after[2] }
}

// The payload of the field at a place of the file.
pub fn payload_at(file: &[u8], at: usize) -> &[u8]
    requires { at + 3 + Fields.size_of (drop (at + 1) file.now) ≤ length file.now }
    ensures { (result.now ≡ Fields.payload_of (drop (at + 1) file.now)) × (length result.now ≡ Fields.size_of (drop (at + 1) file.now)) }
{
    let b = at + 1;
    let a = at + 3;
    let e = a + size_of(&file[b..]);
    &file[a..e]
}
