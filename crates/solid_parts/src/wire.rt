// The case Wire of tessellate in src/tessellate.rs: each tube and each sphere is welded by itself.
ghost use Rattle.std.specs.Prelude.{◌≡◌, false, [], ◌∷◌, ◌+◌, ◌*◌, ◌≤◌, length};
ghost use Rattle.ieee.specs.Number.{plus_zero};
ghost use Rattle.weld.specs.Rep.{Ready};
ghost use Rattle.weld.specs.Welding.{held_by, WeldsParts};
ghost use Rattle.solid_spec.specs.Sphere.{sphere};
ghost use Rattle.solid_spec.specs.Cylinder.{cylinder};
ghost use Rattle.solid_spec.specs.Wire.{wire_point, wire_tubes, wire_joints, wire_parts};

use math::Vec3;
use shape::TessellationOptions;
use weld::Welding;

// Point i of a wire, converted.
fn wire_point(list: &[f64], i: usize, cylindrical: bool) -> Vec3
    requires { 3 * i + 3 ≤ length list.now }
    ensures { result ≡ wire_point cylindrical list.now i }
{
    surface_coords::to_cartesian(mesh_triples::vertex(list, i), cylindrical)
}

// The tube from point i to the next is a part.
fn weld_tube_part(
    w: &mut Welding<'_>,
    list: &[f64],
    i: usize,
    cylindrical: bool,
    r: f64,
    segments: usize,
)
    requires ready { Ready (held_by w.old) }
    requires segments_bound { (segments ≤ 1024) × (3 * i + 6 ≤ length list.now) }
    ensures { WeldsParts
        (cylinder (wire_point cylindrical list.now i) (wire_point cylindrical list.now (i + 1)) plus_zero r segments ∷ [])
        w.old w.new }
{
    let a = wire_point(list, i, cylindrical);
    let b = wire_point(list, i + 1, cylindrical);
    solid_cylinder::weld_cylinder(w, a, b, 0.0, r, segments);
    weld::new_part(w);
}

// The sphere at point i is a part.
fn weld_joint_part(
    w: &mut Welding<'_>,
    list: &[f64],
    i: usize,
    cylindrical: bool,
    r: f64,
    options: TessellationOptions,
)
    requires ready { Ready (held_by w.old) }
    requires segments_bound { (options.segments ≤ 1024) × (options.sphere_rings ≤ 1024) × (3 * i + 3 ≤ length list.now) }
    ensures { WeldsParts
        (sphere (wire_point cylindrical list.now i) r options.segments options.sphere_rings false ∷ []) w.old w.new }
{
    let c = wire_point(list, i, cylindrical);
    solid_sphere::weld_sphere(w, c, r, options, false);
    weld::new_part(w);
}

// The tubes of a wire: one from each point but the last.
// A loop of one line, as in weld_joints and weld_multi_box: one over a closure would need the parts of each as its clause.
fn weld_tubes(w: &mut Welding<'_>, list: &[f64], cylindrical: bool, r: f64, segments: usize)
    requires ready { Ready (held_by w.old) }
    requires segments_bound { segments ≤ 1024 }
    ensures { WeldsParts (wire_tubes cylindrical list.now r segments) w.old w.new }
{
    let n = list.len() / 3;
    for i in 1..n {
        weld_tube_part(w, list, i - 1, cylindrical, r, segments);
    }
}

// The spheres at the inner points of a wire.
fn weld_joints(
    w: &mut Welding<'_>,
    list: &[f64],
    cylindrical: bool,
    r: f64,
    options: TessellationOptions,
)
    requires ready { Ready (held_by w.old) }
    requires segments_bound { (options.segments ≤ 1024) × (options.sphere_rings ≤ 1024) }
    ensures { WeldsParts (wire_joints cylindrical list.now r options.segments options.sphere_rings) w.old w.new }
{
    let n = list.len() / 3;
    for j in 2..n {
        weld_joint_part(w, list, j - 1, cylindrical, r, options);
    }
}

pub fn weld_wire(
    w: &mut Welding<'_>,
    list: &[f64],
    cylindrical: bool,
    r: f64,
    options: TessellationOptions,
)
    requires ready { Ready (held_by w.old) }
    requires segments_bound { (options.segments ≤ 1024) × (options.sphere_rings ≤ 1024) }
    ensures { WeldsParts (wire_parts cylindrical list.now r options.segments options.sphere_rings) w.old w.new }
{
    if r > 0.0 {
        weld_tubes(w, list, cylindrical, r, options.segments);
        weld_joints(w, list, cylindrical, r, options);
    }
}
