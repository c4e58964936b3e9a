// Guesses at the numbers of points. The welder tests each, so a wrong one costs a look-up and nothing else.
ghost use Rattle.std.specs.Prelude.{◌≡◌, ◌&&◌, cond, ◌+◌, ◌-◌, ltb};
ghost use Rattle.mesh_spec.specs.Mesh.{same_point};

use math::Vec3;

// The guess at p's number where q's is n: n if the points are equal, or else another guess.
pub fn same_or(p: Vec3, q: Vec3, n: usize, other: usize) -> usize
    ensures { result ≡ cond (same_point p q) n other }
{
    if p == q { n } else { other }
}

// The guess at the number of c, the last corner of a cell: that of the cell's b or d, or of the row's first point, where c equals it, or else
// another guess. The last point of a row round an axis equals the first.
pub fn last_corner(
    c: Vec3,
    b: Vec3,
    nb: usize,
    d: Vec3,
    nd: usize,
    first: Vec3,
    nfirst: usize,
    other: usize,
) -> usize
    ensures { result ≡ cond (same_point c b) nb (cond (same_point c d) nd (cond (same_point c first) nfirst other)) }
{
    same_or(
        c,
        b,
        nb,
        same_or(c, d, nd, same_or(c, first, nfirst, other)),
    )
}

// The guess at a point's number where those of the two points before it are `last` and n: as far on from n. Points of an earlier
// grid were numbered there at even distances.
pub fn onward(last: usize, n: usize, none: usize) -> usize
    ensures { result ≡ cond (ltb last n && ltb n 4294967296) (n + (n - last)) none }
{
    if last < n && n < 4294967296 {
        n + (n - last)
    } else {
        none
    }
}
