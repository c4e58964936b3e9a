// What a payload is made of, and the lengths that it can have.
#![tactic(auto)]

ghost use Rattle.std.specs.Prelude.{◌≡◌};
ghost use Rattle.fixture_spec.specs.Fields as Fields;

use fixture_spec::Layout;

fn layout(bytes: u8, floats: u8, item: u8) -> Layout
    ensures { result ≡ Fields.layout bytes floats item }
{
    Layout {
        bytes,
        floats,
        item,
    }
}

// The layout of a payload by the tag, and in 05 by the kind.
pub fn layout_of(tag: u8, kind: u8) -> Layout
    ensures { result ≡ Fields.layout_of tag kind }
{
    match tag {
        0x01 => layout(4, 0, 0),
        0x05 => layout(1, transform_bytes::op_floats(kind), 0),
        0x10 => layout(0, 6, 0),
        0x11 => layout(0, 0, 6),
        0x12 => layout(0, 4, 0),
        0x13 => layout(0, 5, 0),
        0x14 => layout(0, 7, 0),
        0x15 => layout(0, 8, 0),
        0x16 => layout(1, 1, 2),
        0x17 => layout(1, 2, 2),
        0x18 => layout(2, 3, 2),
        0x19 => layout(0, 1, 3),
        _ => layout(1, 0, 0),
    }
}

// The bytes before the list.
pub fn fixed_bytes(l: Layout) -> usize
    ensures { result ≡ Fields.fixed_bytes l }
{
    usize::from(l.bytes) + 8 * usize::from(l.floats)
}

// Whether a payload of n bytes has all its bytes, and whole items behind them.
pub fn right_size(l: Layout, n: usize) -> bool
    ensures { result ≡ Fields.right_size l n }
{
    let fixed = fixed_bytes(l);
    let item = usize::from(l.item);
    if item == 0 {
        return n == fixed;
    }
    if n < fixed {
        return false;
    }
    (n - fixed) % (8 * item) == 0
}
