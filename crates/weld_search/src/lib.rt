// The number of a point that came out of `+ 0.0`: that of the first equal vertex of its part, or the next one.
#![tactic(auto)]

ghost use Rattle.std.specs.Prelude.{◌≡◌};
ghost use Rattle.weld_vertex.specs.Points.{Clean, is_at};
ghost use Rattle.weld.specs.Rep.{Linked};
ghost use Rattle.weld.specs.States.{Foresees};
ghost use Rattle.weld_search.specs.Search.{BucketOrNone, WeldsPoint};

mod search;

use math::Vec3;
use weld::Welding;
use weld_order::Row;

// Gives a point its number, a guess at which is tried before the look-up.
pub fn weld_point(w: &mut Welding<'_>, p: Vec3, guess: usize) -> usize
    requires { Linked w.old.st w.old.vertices.now w.old.work.now × Clean p }
    ensures { WeldsPoint p w.old w.new result }
{
    if !w.st.room {
        return 0;
    }
    if is_right(w, guess, p) {
        return guess;
    }
    look_up(w, p, None)
}

// Whether a guess is right: it is a vertex of this part, and equals p.
fn is_right(w: &Welding<'_>, guess: usize, p: Vec3) -> bool
    requires { Linked w.now.st w.now.vertices.now w.now.work.now }
    ensures { result ≡ is_at w.now.vertices.now w.now.st.base w.now.st.count p guess }
{
    weld_vertex::is_at(w.vertices, w.st.base, w.st.count, guess, p)
}

// What the rows show of a point. A function of its own, since `weld::foresee` reads two fields of w, which look_up may write.
fn foresee(w: &Welding<'_>, p: Vec3) -> Option<Row>
    requires { Linked w.now.st w.now.vertices.now w.now.work.now × Clean p }
    ensures { Foresees w.now.st w.now.vertices.now p result }
{
    weld::foresee(w.vertices, &w.st, p)
}

// Gives a point its number: that of the first equal vertex of this part, or the next one, with which it is written. A point that the
// rows show to be new goes into no chain yet. The caller may have worked out the bucket of p: where `bucket` has a number below the places, that is it.
// 0 where the mesh does not fit, and no Option: an answer of more than one word made look-ups slower (docs/SPEED.md).
pub fn look_up(w: &mut Welding<'_>, p: Vec3, bucket: Option<usize>) -> usize
    requires { Linked w.old.st w.old.vertices.now w.old.work.now × Clean p × BucketOrNone w.old.st.places p bucket }
    ensures { WeldsPoint p w.old w.new result }
{
    if !w.st.room {
        return 0;
    }
    match foresee(w, p) {
        None => search::search(w, p, bucket),
        Some(row) => {
            let count = w.st.count;
            if count < w.st.places {
                mesh_triples::put_vertex(w.vertices, count, p);
                w.st.add_in_row(row);
                count
            } else {
                w.st.shut();
                0
            }
        }
    }
}
