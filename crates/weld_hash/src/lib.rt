// The hash chains in the work slice. They find the vertex that equals a point, as the `HashMap` of from_soup does.
#![tactic(auto)]

ghost use Rattle.std.specs.Prelude.{◌≡◌, ◌*◌, ◌<◌, ◌≤◌, ◌^◌, length};
ghost use Rattle.weld_vertex.specs.Points.{Clean};
ghost use Rattle.weld_bucket.specs.Bucket.{bucket_of};
ghost use Rattle.weld_hash.specs.Hash.{Distinct, Chained, Indexed, linked_in, Sought, Placing};

use math::Vec3;

// The first of the vertices from `base` below `count` that equals p. Vertices below `base` are of earlier parts.
// places, base and count are fields of weld::Welder, which lies above: a struct of the three here would be made anew at each look-up.
fn find(
    vertices: &[f64],
    work: &[u32],
    places: usize,
    base: usize,
    count: usize,
    bucket: usize,
    p: Vec3,
) -> Option<usize>
    requires distinct { Distinct vertices.now places base count × Chained vertices.now work.now places base count }
    requires bucket_value { (bucket ≡ bucket_of places p) × (bucket < places) × Clean p }
    ensures { Sought vertices.now base count p result }
{
    let mut k = work[bucket] as usize;
    // A `while`: each entry of the chain tells the next, so no range counts them; an iterator of the chain would be this loop and a type for it.
    while base < k {
        let m = k - 1;
        if weld_vertex::equal(mesh_triples::vertex(vertices, m), p) {
            return Some(m);
        }
        k = work[places + m] as usize;
    }
    None
}

// Puts vertex m at the head of its bucket.
fn link(work: &mut [u32], places: usize, m: usize, bucket: usize)
    requires { (2 * places ≤ length work.old) × (m < places) × (bucket < places) × (places < 2 ^ 32) }
    ensures { work.new ≡ linked_in work.old places m bucket }
{
    let head = work[bucket];
    work[places + m] = head;
    work[bucket] = (m + 1) as u32;
}

// Puts the vertices from `base` below `count` into their buckets. None of them is in one before.
pub fn index(vertices: &[f64], work: &mut [u32], places: usize, base: usize, count: usize)
    requires { Distinct vertices.now places base count × (places < 2 ^ 32) × Chained vertices.now work.old places base base }
    ensures { Indexed vertices.now work.old places base count work.new }
{
    for m in base..count {
        link(
            work,
            places,
            m,
            weld_bucket::bucket_of(mesh_triples::vertex(vertices, m), places),
        );
    }
}

// The number of p: that of the first of the vertices from `base` below `count` that equals it; or `count`, with which it is
// written; or none where no place is left. All these vertices are in their buckets, and a new one is put there. The caller has
// worked out the bucket of p.
pub fn number_of(
    vertices: &mut [f64],
    work: &mut [u32],
    places: usize,
    base: usize,
    count: usize,
    bucket: usize,
    p: Vec3,
) -> Option<usize>
    requires distinct { Distinct vertices.old places base count × Chained vertices.old work.old places base count }
    requires bucket_value { (bucket ≡ bucket_of places p) × (bucket < places) × (places < 2 ^ 32) × Clean p }
    ensures { Placing places base count p vertices.old work.old result vertices.new work.new }
{
    match find(vertices, work, places, base, count, bucket, p) {
        Some(m) => Some(m),
        None if count < places => {
            mesh_triples::put_vertex(vertices, count, p);
            link(work, places, count, bucket);
            Some(count)
        }
        None => None,
    }
}
