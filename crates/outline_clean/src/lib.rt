// The corners of an outline without equal neighbours: clean_polygon of src/tessellate.rs.
#![tactic(auto)]

ghost use Rattle.std.specs.Prelude.{◌≡◌, [], ◌+◌, ◌*◌, ◌≤◌, length, take};
ghost use Rattle.outline.specs.Clean.{ends_in, pushed, gathered, stay as stay·, clean_polygon};
ghost use Rattle.outline.specs.Slices.{Grew, Holds};

use outline::{Point, corner, put_corner};

// Whether the last of out's first m corners equals p.
fn ends_in(out: &[f64], m: usize, p: Point) -> bool
    requires { 2 * m ≤ length out.now }
    ensures { result ≡ ends_in (take (2 * m) out.now) p }
{
    0 < m && corner(out, m - 1) == p
}

// The Rust's first loop, for one corner: p after out's first m, unless the last of them equals it; and how many there are then.
fn push(out: &mut [f64], m: usize, p: Point) -> usize
    requires { 2 * m + 2 ≤ length out.old }
    ensures { Grew (pushed (take (2 * m) out.old) p) m result out.new }
{
    if ends_in(out, m, p) {
        return m;
    }
    put_corner(out, m, p);
    m + 1
}

// The Rust's second loop: how many of out's first m corners are left once last corners that equal the first are popped.
fn stay(out: &[f64], m: usize) -> usize
    requires { 2 * m ≤ length out.now }
    ensures { (result ≡ stay· out.now m) × (result ≤ m) }
{
    let mut k = m;
    // A `while`: how many corners go depends on the corners, and the answer is where it stops; a range would need a return and an answer after it.
    while 1 < k && corner(out, 0) == corner(out, k - 1) {
        k -= 1;
    }
    k
}

// The Rust's first loop: each corner of v in its turn, equal neighbours once; and how many there are.
fn gather(v: &[f64], out: &mut [f64]) -> usize
    requires { length v.now ≤ length out.old }
    ensures { (take (2 * result) out.new ≡ gathered [] v.now) × (2 * result ≤ length out.old) }
{
    let mut m = 0;
    for i in 0..v.len() / 2 {
        m = push(out, m, corner(v, i));
    }
    m
}

// The Rust's clean_polygon, an inner function: its callers lend an out that is as long as v at least. The corners without equal neighbours and without last
// corners that equal the first, at the start of out; and how many there are. What comes after them is of no account.
pub fn clean_polygon(v: &[f64], out: &mut [f64]) -> usize
    requires { length v.now ≤ length out.old }
    ensures { Holds (clean_polygon v.now) result out.new }
{
    let m = gather(v, out);
    stay(out, m)
}
