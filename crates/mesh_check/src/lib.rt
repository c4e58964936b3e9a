// A mesh in lent slices: three floats a vertex, three numbers a triangle, and its record by value: the two counts and the box of the vertices.
// The checks that every call on it makes: refusals 8 and 1, then 8 for the box.
#![tactic(auto)]

ghost use Rattle.std.specs.Prelude.{◌≡◌};
ghost use Rattle.mesh_check.specs.State.{record_of, empty_record};

mod checks;
mod refusals;

pub use checks::bad_mesh;
use math::BoundingBox;
pub use refusals::check;

// The record of a mesh: its counts, and the box of its vertices.
// The slices are lent and may be longer than the mesh, so the record has counts: there is no heap for a Vec, and C lends slices too.
#[derive(Clone, Copy)]
pub struct TriMesh {
    pub vertices: usize,
    pub triangles: usize,
    pub bounds: BoundingBox,
}

// The record of a mesh of so many vertices and triangles with such a box.
pub fn record_of(vertices: usize, triangles: usize, bounds: BoundingBox) -> TriMesh
    ensures { result ≡ record_of vertices triangles bounds }
{
    TriMesh {
        vertices,
        triangles,
        bounds,
    }
}

// The record of a mesh without vertices and triangles.
pub fn empty_record() -> TriMesh
    ensures { result ≡ empty_record }
{
    record_of(0, 0, math_box::empty_box())
}
