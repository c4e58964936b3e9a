// Open or closed: the numbers of each triangle, and each directed edge counted against its reverse. A slice has three numbers a triangle.
#![tactic(auto)]

ghost use Rattle.std.specs.Prelude.{◌≡◌, ◌+◌, ◌*◌, ◌≤◌, length};
ghost use Rattle.mesh_balance_spec.specs.Soup.{round};
ghost use Rattle.mesh_balance_spec.specs.Count.{here, edges, uses};
ghost use Rattle.mesh_balance_spec.specs.Buffer.{tris};
ghost use Rattle.mesh_spec.specs.Decides.{Decides};
ghost use Rattle.mesh_spec.specs.Mesh.{Mesh};
ghost use Rattle.mesh_spec.specs.Closed.{Closed};
ghost use Rattle.mesh_triples.specs.Triples.{triple_at};
ghost use Rattle.mesh_closed.specs.Even.{even_edge, even_triangle, closed_triangle};

// 1 where (a, b) is (u, v), else 0.
fn is_edge(a: u32, b: u32, u: u32, v: u32) -> usize
    ensures { result ≡ here u v a b }
{
    if (a == u) & (b == v) { 1 } else { 0 }
}

// How often triangle i of t uses the directed edge (u, v).
fn triangle_uses(t: &[u32], i: usize, u: u32, v: u32) -> usize
    requires { 3 * i + 3 ≤ length t.now }
    ensures { result ≡ round (here u v) (triple_at t.now i 0) }
{
    let at = 3 * i;
    let a = t[at];
    let b = t[at + 1];
    let c = t[at + 2];
    is_edge(a, b, u, v) + is_edge(b, c, u, v) + is_edge(c, a, u, v)
}

// How often t uses the directed edge (u, v).
fn count_uses(t: &[u32], u: u32, v: u32) -> usize
    ensures { result ≡ uses u v (edges (tris t.now)) }
{
    let mut n = 0;
    for i in 0..t.len() / 3 {
        n += triangle_uses(t, i, u, v);
    }
    n
}

// Whether t uses (u, v) as often as (v, u).
fn even(t: &[u32], u: u32, v: u32) -> bool
    ensures { result ≡ even_edge (tris t.now) u v }
{
    count_uses(t, u, v) == count_uses(t, v, u)
}

// Whether t uses each edge of triangle i as often as its reverse.
fn triangle_even(t: &[u32], i: usize) -> bool
    requires { 3 * i + 3 ≤ length t.now }
    ensures { result ≡ even_triangle (tris t.now) (triple_at t.now i 0) }
{
    let at = 3 * i;
    let a = t[at];
    let b = t[at + 1];
    let c = t[at + 2];
    even(t, a, b) & even(t, b, c) & even(t, c, a)
}

// Whether triangle i names three different vertices below n, and t uses each of its edges as often as its reverse.
fn triangle_closed(n: usize, t: &[u32], i: usize) -> bool
    requires { 3 * i + 3 ≤ length t.now }
    ensures { result ≡ closed_triangle n (tris t.now) (triple_at t.now i 0) }
{
    let at = 3 * i;
    let a = t[at];
    let b = t[at + 1];
    let c = t[at + 2];
    let apart = (a != b) & (b != c) & (a != c);
    let there = ((a as usize) < n) & ((b as usize) < n) & ((c as usize) < n);
    apart & there & triangle_even(t, i)
}

// Whether a mesh of n vertices with the triangles t is closed.
pub fn closed(n: usize, t: &[u32]) -> bool
    ensures { (m : Mesh) → length m.vertices ≡ n → m.triangles ≡ tris t.now → Decides result (Closed m) }
{
    for i in 0..t.len() / 3 {
        if !triangle_closed(n, t, i) {
            return false;
        }
    }
    true
}
