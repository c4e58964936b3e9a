// A point before it is welded.
ghost use Rattle.std.specs.Prelude.{◌≡◌, true};
ghost use Rattle.math.specs.Vec.{v_finite};
ghost use Rattle.mesh_spec.specs.Mesh.{plus_zero_v};
ghost use Rattle.weld_vertex.specs.Points.{Clean};

use math::Vec3;

// No coordinate is −0.0 afterwards.
// Not shared with mesh_box::plus_zero: the edits keeps_minus_zero here and box_keeps_minus_zero there each turn a sum of their own crate.
pub fn plus_zero(p: Vec3) -> Vec3
    requires { v_finite p ≡ true }
    ensures { (result ≡ plus_zero_v p) × Clean result }
{
    Vec3 {
        x: p.x + 0.0,
        y: p.y + 0.0,
        z: p.z + 0.0,
    }
}
