// The solid and the operation of a payload.
ghost use Rattle.std.specs.Prelude.{◌≡◌, true, ◌≤◌, length, get_or};
ghost use Rattle.fixture_spec.specs.Fields as Fields;
ghost use Rattle.fixture_spec.specs.Solids as Solids;
ghost use Rattle.fixture_solid.specs.Field as Field;

use fixture_layout::layout_of;
use fixture_spec::Layout;
use shape::Shape;
use transform::TransformOp;

// The byte at place i, 0 where there is none.
fn byte_at(p: &[u8], i: usize) -> u8
    ensures { result ≡ get_or p.now i 0 }
{
    if i < p.len() { p[i] } else { 0 }
}

// The single numbers of a solid, and zeros up to ten.
fn numbers_of(l: Layout, p: &[u8]) -> [f64; 10]
    requires { Field.Numbers l p.now }
    ensures { result ≡ Solids.numbers_of l p.now }
{
    let from = usize::from(l.bytes);
    let n = usize::from(l.floats);
    let mut numbers = [0.0; 10];
    slice_byte_lists::get_floats(&p[from..], &mut numbers[..n]);
    numbers
}

// The solid of a tag and a payload.
pub fn solid_of(tag: u8, p: &[u8]) -> Shape
    requires { (Fields.is_solid tag ≡ true) × (Fields.fixed_bytes (Fields.layout_of tag 0) ≤ length p.now) }
    ensures { result ≡ Solids.solid_of tag p.now }
{
    let numbers = numbers_of(layout_of(tag, 0), p);
    shape_fields::shape_of(tag - 0x10, byte_at(p, 0), byte_at(p, 1), &numbers)
}

// The operation of a payload.
pub fn read_op(p: &[u8]) -> TransformOp
    requires { Field.Sound 5 p.now }
    ensures { result ≡ Solids.op_of p.now }
{
    transform_bytes::op_of_kind(p[0], p, 1)
}
