// The triangles that the clipper writes: the Rust's out.
ghost use Rattle.std.specs.Prelude.{◌≡◌, [], ◌∷◌, ◌+◌, ◌-◌, ◌*◌, ◌<◌, ◌≤◌, ◌^◌, length};
ghost use Rattle.outline_ears.specs.Inside.{idx_of};
ghost use Rattle.outline_triangulate.specs.Triangulate.{fan as fan·};
ghost use Rattle.outline_triangulate.specs.Slices.{WroteTriangles};

use outline_ears::Remaining;

// Triangle t of out becomes a b c.
// Three writes, as in mesh_triples::put_vertex: over one function for both kinds of elements this one would stay, for the clause that its callers cite.
pub fn put(out: &mut [u32], t: usize, a: u32, b: u32, c: u32)
    requires { 3 * t + 3 ≤ length out.old }
    ensures { WroteTriangles t (t + 1) (a ∷ b ∷ c ∷ []) out.old out.new }
{
    let i = 3 * t;
    out[i] = a;
    out[i + 1] = b;
    out[i + 2] = c;
}

// The fan from the first corner that remains, from triangle t of out on; and the number of triangles then.
pub fn fan(left: &Remaining, t: usize, out: &mut [u32]) -> usize
    requires { (2 ≤ left.now.m) × (left.now.m ≤ 512) × (length left.now.idx ≡ 512)
        × (3 * t + 3 * (left.now.m - 2) ≤ length out.old) × (length out.old < 2 ^ 62) }
    ensures { (result ≡ t + (left.now.m - 2)) × WroteTriangles t result (fan· (idx_of left.now)) out.old out.new }
{
    let a = left.idx[0];
    for k in 1..left.m - 1 {
        put(out, t + (k - 1), a, left.idx[k], left.idx[k + 1]);
    }
    t + (left.m - 2)
}
