// The loops that write triangles, and copies into a slice: turned triangles, floats and numbers at a place.
#![tactic(auto)]

ghost use Rattle.std.specs.Prelude.{◌≡◌, map, ℕ, ◌+◌, ◌*◌, ◌^◌, ◌≤◌, ◌<◌, length, get_or};
ghost use Rattle.std.proofs.Math.Seq.{paste};
ghost use Rattle.mesh_balance_spec.specs.Soup.{flip_tri};
ghost use Rattle.mesh_triples.specs.Triples.{each_to, triple_at, put_triple};

// Writes the first count floats of from at place at.
// A loop and no copy_from_slice: with that, a library for C would need memmove from the program that links it.
pub fn copy(out: &mut [f64], at: usize, from: &[f64], count: usize)
    requires { (at + count ≤ length out.old) × (count ≤ length from.now) }
    ensures { out.new ≡ paste out.old at from.now count }
{
    for i in 0..count {
        out[at + i] = from[i];
    }
}

// Writes the first count numbers of from, each with n added, at place at.
pub fn copy_up(out: &mut [u32], at: usize, from: &[u32], count: usize, n: u32)
    requires { (at + count ≤ length out.old) × (count ≤ length from.now) × ((i : ℕ) → i < count → get_or from.now i 0 + n < 2 ^ 32) }
    ensures { out.new ≡ paste out.old at (map (λ i. i + n) from.now) count }
{
    for i in 0..count {
        out[at + i] = from[i] + n;
    }
}

// Exchanges the second and third number of triangle i.
fn turn(triangles: &mut [u32], i: usize)
    requires { 3 * i + 3 ≤ length triangles.old }
    ensures { triangles.new ≡ put_triple triangles.old i (flip_tri (triple_at triangles.old i 0)) }
{
    triangles.swap(3 * i + 1, 3 * i + 2);
}

// Exchanges the second and third number of each of the first count triangles.
pub fn turn_all(triangles: &mut [u32], count: usize)
    requires { 3 * count ≤ length triangles.old }
    ensures { triangles.new ≡ each_to flip_tri count triangles.old }
{
    for i in 0..count {
        turn(triangles, i);
    }
}
