// The end of the case RotPoly: `if m.signed_volume() < 0.0 { m.flip(); }`.
ghost use Rattle.std.specs.Prelude.{◌≡◌};
ghost use Rattle.mesh_check.specs.State.{state, mesh_of, stored};
ghost use Rattle.mesh_check.specs.Places.{Recorded};
ghost use Rattle.solid_spec.specs.Solid.{outward, outward_if};

use mesh_check::TriMesh;

// Turns every triangle where the signed volume is below 0.
fn turn_outward(mesh: TriMesh, vertices: &[f64], triangles: &mut [u32])
    requires { Recorded (state mesh vertices.now triangles.old) }
    ensures { state mesh vertices.now triangles.new
        ≡ stored (outward (mesh_of (state mesh vertices.now triangles.old)))
        (state mesh vertices.now triangles.old) }
{
    let k = mesh.triangles;
    let volume = mesh_sums::volume_sum(vertices, triangles, k) / 6.0;
    if volume < 0.0 {
        mesh_write::turn_all(triangles, k);
        return;
    }
}

// The same for a rotated outline; other meshes stay.
pub fn turn_rotated(rotated: bool, mesh: TriMesh, vertices: &[f64], triangles: &mut [u32])
    requires { Recorded (state mesh vertices.now triangles.old) }
    ensures { state mesh vertices.now triangles.new
        ≡ stored (outward_if rotated (mesh_of (state mesh vertices.now triangles.old)))
        (state mesh vertices.now triangles.old) }
{
    if rotated {
        turn_outward(mesh, vertices, triangles);
        return;
    }
}
