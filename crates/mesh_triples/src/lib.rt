// Three elements of a lent slice at a place: a vertex read, and a vertex written.
#![tactic(auto)]

ghost use Rattle.std.specs.Prelude.{◌≡◌, ◌+◌, ◌*◌, ◌≤◌, length};
ghost use Rattle.mesh_spec.specs.Slices.{tri_of, vertex_at};
ghost use Rattle.mesh_triples.specs.Triples.{put_triple};

use math::Vec3;

// Vertex i.
pub fn vertex(vertices: &[f64], i: usize) -> Vec3
    requires { 3 * i + 3 ≤ length vertices.now }
    ensures { result ≡ vertex_at vertices.now i }
{
    let at = 3 * i;
    Vec3 {
        x: vertices[at],
        y: vertices[at + 1],
        z: vertices[at + 2],
    }
}

// Writes p as vertex i.
pub fn put_vertex(vertices: &mut [f64], i: usize, p: Vec3)
    requires { 3 * i + 3 ≤ length vertices.old }
    ensures { vertices.new ≡ put_triple vertices.old i (tri_of p) }
{
    let at = 3 * i;
    vertices[at] = p.x;
    vertices[at + 1] = p.y;
    vertices[at + 2] = p.z;
}
