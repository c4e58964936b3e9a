// The search for a point among the vertices of its part. Those that came row by row go into the chains first.
ghost use Rattle.std.specs.Prelude.{◌≡◌, true, false, ◌<◌, ◌^◌};
ghost use Rattle.weld_vertex.specs.Points.{Clean};
ghost use Rattle.weld_bucket.specs.Bucket.{bucket_of};
ghost use Rattle.weld_hash.specs.Hash.{Distinct, Chained, Indexed};
ghost use Rattle.weld.specs.Rep.{Linked};
ghost use Rattle.weld_search.specs.Search.{BucketOrNone, Settles, WeldsPoint};

use math::Vec3;
use weld::Welding;

// Gives a point its number by a search. The caller may have worked out the bucket of p: where `bucket` has a number below the places, that is it.
pub fn search(w: &mut Welding<'_>, p: Vec3, bucket: Option<usize>) -> usize
    requires linked { Linked w.old.st w.old.vertices.now w.old.work.now × Clean p × BucketOrNone w.old.st.places p bucket }
    requires some { (w.old.st.room ≡ true) × (w.old.st.base < w.old.st.count) }
    ensures { WeldsPoint p w.old w.new result }
{
    settle(w);
    find(w, p, bucket)
}

// Puts all vertices of this part into the chains.
fn settle(w: &mut Welding<'_>)
    requires { Linked w.old.st w.old.vertices.now w.old.work.now }
    ensures { Settles w.old w.new }
{
    if w.st.ordered {
        let places = w.st.places;
        let base = w.st.base;
        let count = w.st.count;
        index(w.vertices, w.work, places, base, count);
        w.st.settle();
    }
}

// `weld_hash::index`, which only reads the vertices. Here they are lent as `&mut`, so that vertices and chains can be lent out of one struct at once.
fn index(vertices: &mut [f64], work: &mut [u32], places: usize, base: usize, count: usize)
    requires { Distinct vertices.old places base count × (places < 2 ^ 32) × Chained vertices.old work.old places base base }
    ensures { (vertices.new ≡ vertices.old) × Indexed vertices.old work.old places base count work.new }
{
    weld_hash::index(vertices, work, places, base, count);
}

// The bucket of p, which is worked out unless it is known. A number that is not below the places is none.
fn bucket_at(p: Vec3, places: usize, bucket: Option<usize>) -> usize
    requires { (0 < places) × (places < 2 ^ 32) × Clean p × BucketOrNone places p bucket }
    ensures { (result ≡ bucket_of places p) × (result < places) }
{
    match bucket {
        Some(b) if b < places => b,
        _ => weld_bucket::bucket_of(p, places),
    }
}

// The same as `search`, where all vertices of this part are in the chains.
fn find(w: &mut Welding<'_>, p: Vec3, bucket: Option<usize>) -> usize
    requires linked { Linked w.old.st w.old.vertices.now w.old.work.now × Clean p × BucketOrNone w.old.st.places p bucket }
    requires some { (w.old.st.room ≡ true) × (w.old.st.base < w.old.st.count) × (w.old.st.ordered ≡ false) }
    ensures { WeldsPoint p w.old w.new result }
{
    let places = w.st.places;
    let base = w.st.base;
    let count = w.st.count;
    let at = bucket_at(p, places, bucket);
    match weld_hash::number_of(w.vertices, w.work, places, base, count, at, p) {
        Some(number) => {
            if number == count {
                w.st.add_searched();
            }
            number
        }
        None => {
            w.st.shut();
            0
        }
    }
}
