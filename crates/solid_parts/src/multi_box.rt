// The case MultiBox of tessellate in src/tessellate.rs: each box is welded by itself.
ghost use Rattle.std.specs.Prelude.{[], ◌∷◌, ◌+◌, ◌*◌, ◌≤◌, length};
ghost use Rattle.weld.specs.Rep.{Ready};
ghost use Rattle.weld.specs.Welding.{held_by, WeldsParts};
ghost use Rattle.solid_spec.specs.Boxes.{box_shape, multi_box_parts};
ghost use Rattle.mesh_spec.specs.Slices.{vertex_at};

use weld::Welding;

// Box i of a multi-box is a part.
fn weld_box_part(w: &mut Welding<'_>, list: &[f64], i: usize, cylindrical: bool, segments: usize)
    requires ready { Ready (held_by w.old) }
    requires segments_bound { (segments ≤ 1024) × (6 * i + 6 ≤ length list.now) }
    ensures { WeldsParts
        (box_shape (vertex_at list.now (2 * i)) (vertex_at list.now (2 * i + 1)) cylindrical segments ∷ []) w.old w.new }
{
    let a = mesh_triples::vertex(list, 2 * i);
    let b = mesh_triples::vertex(list, 2 * i + 1);
    solid_box::weld_box_shape(w, a, b, cylindrical, segments);
    weld::new_part(w);
}

pub fn weld_multi_box(w: &mut Welding<'_>, list: &[f64], cylindrical: bool, segments: usize)
    requires ready { Ready (held_by w.old) }
    requires segments_bound { segments ≤ 1024 }
    ensures { WeldsParts (multi_box_parts cylindrical list.now segments) w.old w.new }
{
    let n = list.len() / 6;
    for i in 0..n {
        weld_box_part(w, list, i, cylindrical, segments);
    }
}
