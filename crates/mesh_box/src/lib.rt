// The box of the vertices of a mesh in a lent slice, whether two boxes are equal, and the box that is all zero. Nothing is written.
#![tactic(auto)]

ghost use Rattle.std.specs.Prelude.{◌≡◌, ◌*◌, ◌≤◌, length, take};
ghost use Rattle.mesh_spec.specs.Slices.{points};
ghost use Rattle.mesh_spec.specs.Measures.{plus_zero_box, box_of, same_box};
ghost use Rattle.mesh_box.specs.FiniteBox.{finite_box};
ghost use Rattle.mesh_box.specs.ZeroBox.{zero_box};

use math::{BoundingBox, Vec3};
use mesh_triples::vertex;

// What one pass over vertices tells: whether every coordinate is finite, and the box. A struct and no option: `finite_box` promises the box in either case.
#[derive(Clone, Copy, Debug, PartialEq)]
pub struct FiniteBox {
    pub finite: bool,
    pub bounds: BoundingBox,
}

// Whether the first n vertices are finite, and their box, in one pass. It has no early end: a mesh that is accepted is read to its end in any case.
pub fn finite_box(vertices: &[f64], n: usize) -> FiniteBox
    requires { 3 * n ≤ length vertices.now }
    ensures { result ≡ finite_box (take (3 * n) vertices.now) }
{
    let mut ok = true;
    let mut b = math_box::empty_box();
    for at in 0..n {
        let p = vertex(vertices, at);
        ok &= p.is_finite();
        b = math_box::include(b, p);
    }
    FiniteBox {
        finite: ok,
        bounds: plus_zero(b),
    }
}

// The box of the first n vertices.
// A loop beside that of finite_box: it is for made meshes, whose vertices have been tested, and a second test of each would be work for nothing.
pub fn box_of(vertices: &[f64], n: usize) -> BoundingBox
    requires { 3 * n ≤ length vertices.now }
    ensures { result ≡ box_of (points (take (3 * n) vertices.now)) }
{
    let mut b = math_box::empty_box();
    for i in 0..n {
        b = math_box::include(b, vertex(vertices, i));
    }
    plus_zero(b)
}

// The box with +0.0 for a bound of −0.0.
pub fn plus_zero(b: BoundingBox) -> BoundingBox
    ensures { result ≡ plus_zero_box b }
{
    let low = b.min;
    let high = b.max;
    BoundingBox {
        min: Vec3 {
            x: low.x + 0.0,
            y: low.y + 0.0,
            z: low.z + 0.0,
        },
        max: Vec3 {
            x: high.x + 0.0,
            y: high.y + 0.0,
            z: high.z + 0.0,
        },
    }
}

// Whether two boxes have equal bounds: −0.0 equals 0.0, and a NaN equals nothing.
// The derived ==, under a name for its clause, and for the edits that change what it compares.
pub fn same_box(a: BoundingBox, b: BoundingBox) -> bool
    ensures { result ≡ same_box a b }
{
    a == b
}

// The box whose bounds are all zero.
pub fn zero_box() -> BoundingBox
    ensures { result ≡ zero_box }
{
    BoundingBox {
        min: Vec3 {
            x: 0.0,
            y: 0.0,
            z: 0.0,
        },
        max: Vec3 {
            x: 0.0,
            y: 0.0,
            z: 0.0,
        },
    }
}
