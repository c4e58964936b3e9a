// What every mesh call checks first: refusal 8 of docs/SCOPE.md, but for the box.
ghost use Rattle.std.specs.Prelude.{◌≡◌};
ghost use Rattle.mesh_check.specs.State.{state, bad_mesh};

use crate::TriMesh;

// 8 for the counts and the numbers: a count is above the whole places of its slice, of which at most 4,294,967,295 count, or a number in a triangle is not
// below the vertex count.
pub fn bad_mesh(mesh: TriMesh, vertices: &[f64], triangles: &[u32]) -> bool
    ensures { result ≡ bad_mesh (state mesh vertices.now triangles.now) }
{
    let n = mesh.vertices;
    let k = mesh.triangles;
    if slice::counted_places(vertices.len()) < n {
        return true;
    }
    if slice::counted_places(triangles.len()) < k {
        return true;
    }
    !slice::all_below(triangles, 3 * k, n as u32)
}
