// Points as the welder compares them, and a vertex of a lent slice compared with one.
#![tactic(auto)]

ghost use Rattle.std.specs.Prelude.{◌≡◌, ◌*◌, ◌≤◌, length};
ghost use Rattle.mesh_spec.specs.Mesh.{same_point};
ghost use Rattle.weld_vertex.specs.Points.{is_at};

use math::Vec3;

// Whether two points are equal as floats.
// The derived ==, under a name for its clause, which proofs of the crates above cite.
pub fn equal(a: Vec3, b: Vec3) -> bool
    ensures { result ≡ same_point a b }
{
    a == b
}

// Whether vertex m is one from `base` below `count` and equals p.
pub fn is_at(vertices: &[f64], base: usize, count: usize, m: usize, p: Vec3) -> bool
    requires { 3 * count ≤ length vertices.now }
    ensures { result ≡ is_at vertices.now base count p m }
{
    if m < base {
        return false;
    }
    if count <= m {
        return false;
    }
    equal(mesh_triples::vertex(vertices, m), p)
}
