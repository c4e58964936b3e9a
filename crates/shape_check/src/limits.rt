// Refusals 3 and 4 of docs/SCOPE.md on what was drawn: too many segments; a list that is not whole or too long, or too many operations.
ghost use Rattle.std.specs.Prelude.{◌≡◌, ◌||◌, ◌<◌};
ghost use Rattle.transform.specs.Checks.{too_many_ops};
ghost use Rattle.shape.specs.Drawing as Drawing;

use shape::{Items, Shape, TessellationOptions};

// Refusal 3.
pub fn too_many_segments(options: TessellationOptions) -> bool
    ensures { result ≡ Drawing.too_many_segments options }
{
    (1024 < options.segments) | (1024 < options.sphere_rings)
}

// Whether n floats are not whole items of k floats, or are more than `most` items.
fn bad_items(k: usize, most: usize, n: usize) -> bool
    requires { 0 < k }
    ensures { result ≡ Drawing.bad_items k most n }
{
    (n % k != 0) | (most < n / k)
}

// Refusal 4 on a list of n floats.
fn bad_list(items: Items, n: usize) -> bool
    ensures { result ≡ Drawing.bad_list items n }
{
    match items {
        Items::NoItems => false,
        Items::Corners => bad_items(2, 512, n),
        Items::Points => bad_items(3, 256, n),
        Items::Boxes => bad_items(6, 256, n),
    }
}

// Refusal 4 on the shape's list of n floats, and on the number of operations.
pub fn bad_lists(shape: Shape, n: usize, op_count: usize) -> bool
    ensures { result ≡ (Drawing.bad_list (Drawing.items_of shape) n || too_many_ops op_count) }
{
    bad_list(shape::items_of(shape), n) | transform_check::too_many_ops(op_count)
}
