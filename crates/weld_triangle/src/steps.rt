// The steps of one turn of from_soup's loop, for points that came out of `+ 0.0`.
ghost use Rattle.std.specs.Prelude.{◌≡◌, ◌+◌, ◌*◌, ◌≤◌, ◌<◌, ◌^◌, set};
ghost use Rattle.weld_vertex.specs.Points.{Clean};
ghost use Rattle.slice.specs.Every.{places_of};
ghost use Rattle.weld.specs.Rep.{Ready};
ghost use Rattle.weld.specs.Welding.{held_by};
ghost use Rattle.weld_triangle.specs.Steps.{WeldsNumbers, WeldsPoints};

use math::Vec3;
use weld::Welding;
use weld_search::look_up;

// One turn of from_soup's loop after `+ 0.0`: the three points get numbers, and the triangle stays where the numbers differ. The buckets of
// all three are worked out before the first look-up, with which soups of few vertices take up to a tenth less time.
pub fn weld_points(w: &mut Welding<'_>, a: Vec3, b: Vec3, c: Vec3)
    requires ready { Ready (held_by w.old) }
    requires clean { Clean a × Clean b × Clean c }
    ensures { WeldsPoints a b c w.old w.new }
{
    let p = weld_bucket::bucket_of(a, w.st.places);
    let q = weld_bucket::bucket_of(b, w.st.places);
    let r = weld_bucket::bucket_of(c, w.st.places);
    let na = look_up(w, a, Some(p));
    let nb = look_up(w, b, Some(q));
    let nc = look_up(w, c, Some(r));
    add_triangle(w, na, nb, nc);
}

// Writes a triangle unless two of its numbers are equal.
pub fn add_triangle(w: &mut Welding<'_>, a: usize, b: usize, c: usize)
    requires { (w.old.st.faces ≤ places_of w.old.triangles.now) × (a < 2 ^ 32) × (b < 2 ^ 32) × (c < 2 ^ 32) }
    ensures { WeldsNumbers a b c w.old w.new }
{
    if !w.st.room || a == b || b == c || a == c {
        return;
    }
    let faces = w.st.faces;
    if slice::counted_places(w.triangles.len()) <= faces {
        w.st.shut();
        return;
    }
    put(w.triangles, faces, a, b, c);
    w.st.add_face();
}

// Writes triangle i.
// Three writes, as in mesh_triples::put_vertex: over one function for both kinds of elements this one would stay, to make the numbers 32-bit ones.
fn put(triangles: &mut [u32], i: usize, a: usize, b: usize, c: usize)
    requires { (i < places_of triangles.old) × (a < 2 ^ 32) × (b < 2 ^ 32) × (c < 2 ^ 32) }
    ensures { triangles.new ≡ set (set (set triangles.old (3 * i) a) (3 * i + 1) b) (3 * i + 2) c }
{
    let at = 3 * i;
    triangles[at] = a as u32;
    triangles[at + 1] = b as u32;
    triangles[at + 2] = c as u32;
}
