// The bucket of a point in the hash chains of the work slice.
#![tactic(auto)]

ghost use Rattle.std.specs.Prelude.{◌≡◌, ◌+◌, ◌*◌, ◌<◌, ◌≤◌, ◌^◌};
ghost use Rattle.weld_vertex.specs.Points.{Clean};
ghost use Rattle.weld_bucket.specs.Bucket.{spread_of, middle_of, bucket_of};

use math::Vec3;

// A number's halves, multiplied apart, so that no product wraps.
fn spread(bits: u64, low: u64, high: u64) -> u64
    requires { low + high < 2 ^ 32 }
    ensures { (result ≡ spread_of bits low high) × (result ≤ (low + high) * 4294967295) }
{
    bits % 4294967296 * low + bits / 4294967296 * high
}

// The middle bits of the product of a number's halves.
fn middle(t: u64) -> u64
    requires { t < 2 ^ 63 }
    ensures { (result ≡ middle_of t) × (result < 2 ^ 32) }
{
    t % 4294967296 * (t / 4294967296 + 1905421161) / 65536 % 4294967296
}

// The bucket of a point. Coordinates that differ in their last bits only have far buckets too: each bit reaches every bit.
// Coordinates can be chosen to collide: the chains are then long, and the number that is found is the same.
pub fn bucket_of(p: Vec3, places: usize) -> usize
    requires { (places < 2 ^ 32) × Clean p }
    ensures { (result ≡ bucket_of places p) × (0 < places → result < places) }
{
    let a = spread(f64::to_bits(p.x), 435250745, 462664305);
    let b = spread(f64::to_bits(p.y), 475705909, 453967447);
    let c = spread(f64::to_bits(p.z), 534814063, 531086897);
    let mixed = middle(spread(a + b + c, 1721092421, 1));
    (mixed as usize) * places / 4294967296
}
