// Soup::quad and Soup::grid of src/tessellate.rs, streamed into the welder.
ghost use Rattle.std.specs.Prelude.{◌+◌, ◌≤◌, ◌<◌, length};
ghost use Rattle.weld.specs.Rep.{Ready};
ghost use Rattle.weld.specs.Welding.{held_by, Welds};
ghost use Rattle.solid_spec.specs.Grid as Grid;
ghost use Rattle.solid_grid.specs.Sheet.{SheetWithin, sheet_at};

use crate::{Sheet, guesses};
use weld::{Four, FourNumbers, Welding};

// The cells of row i. The last two points of a cell are the first two of the next, where their numbers are known. `numbers` has
// guesses at the numbers of the row's points, and afterwards of the next row's.
fn weld_row(
    w: &mut Welding<'_>,
    x: &Sheet<'_>,
    numbers: &mut [usize],
    i: usize,
    nv: usize,
    flip: bool,
)
    requires ready { Ready (held_by w.old) }
    requires i_bound { (i + 1 ≤ 1024) × (nv ≤ 1024) × (nv < length numbers.old) × SheetWithin x.now (i + 1) nv }
    ensures { Welds (Grid.row nv flip (sheet_at x.now) i) w.old w.new }
{
    let mut a = x.point(i, 0);
    let first = x.point(i + 1, 0);
    let mut b = first;
    let mut na = numbers[0];
    let mut nb = guesses::same_or(b, a, na, w.st.count);
    let mut last = nb;
    for j in 0..nv {
        let d = x.point(i, j + 1);
        let c = x.point(i + 1, j + 1);
        let nd = guesses::same_or(d, a, na, numbers[j + 1]);
        let on = guesses::onward(last, nb, w.st.count);
        let nc = guesses::last_corner(c, b, nb, d, nd, first, numbers[0], on);
        let p = Four { a, b, c, d };
        let n = FourNumbers {
            a: na,
            b: nb,
            c: nc,
            d: nd,
        };
        let q = weld_cell::weld_in_row(w, flip, 0 < j, p, n);
        numbers[j] = q.b;
        last = q.b;
        a = d;
        b = c;
        na = q.d;
        nb = q.c;
    }
    numbers[nv] = nb;
}

// Soup::grid with one column over a surface. The last two points of a cell are the first two of the next, where their numbers are known.
fn weld_column(w: &mut Welding<'_>, x: &Sheet<'_>, nu: usize, flip: bool)
    requires ready { Ready (held_by w.old) }
    requires nu_bound { (nu ≤ 1024) × SheetWithin x.now nu 1 }
    ensures { Welds (Grid.grid nu 1 flip (sheet_at x.now)) w.old w.new }
{
    let mut a = x.point(0, 0);
    let mut d = x.point(0, 1);
    let mut na = w.st.count;
    let mut nd = w.st.count;
    for i in 0..nu {
        let b = x.point(i + 1, 0);
        let c = x.point(i + 1, 1);
        let p = Four { a, b, c, d };
        let n = FourNumbers {
            a: na,
            b: guesses::same_or(b, a, na, w.st.count),
            c: guesses::same_or(c, d, nd, w.st.count),
            d: nd,
        };
        let q = weld_cell::weld_in_column(w, flip, 0 < i, p, n);
        a = b;
        d = c;
        na = q.b;
        nd = q.c;
    }
}

// Soup::grid over a surface, row by row. `numbers` is for guesses at the numbers of a row's points.
fn weld_rows(
    w: &mut Welding<'_>,
    x: &Sheet<'_>,
    numbers: &mut [usize],
    nu: usize,
    nv: usize,
    flip: bool,
)
    requires ready { Ready (held_by w.old) }
    requires nu_bound { (nu ≤ 1024) × (nv ≤ 1024) × (nv < length numbers.old) × SheetWithin x.now nu nv }
    ensures { Welds (Grid.grid nu nv flip (sheet_at x.now)) w.old w.new }
{
    for i in 0..nu {
        weld_row(w, x, numbers, i, nv, flip);
    }
}

// Soup::grid over a surface. `numbers` is for guesses at the numbers of a row's points: what it holds before and after does not matter.
// `numbers` is lent as a slice, as there is no heap: it has a place for each point of a row, and how many it has is its length.
pub fn weld_grid(
    w: &mut Welding<'_>,
    x: &Sheet<'_>,
    numbers: &mut [usize],
    nu: usize,
    nv: usize,
    flip: bool,
)
    requires ready { Ready (held_by w.old) }
    requires nu_bound { (nu ≤ 1024) × (nv ≤ 1024) × (nv < length numbers.old) × SheetWithin x.now nu nv }
    ensures { Welds (Grid.grid nu nv flip (sheet_at x.now)) w.old w.new }
{
    if nv == 1 {
        weld_column(w, x, nu, flip);
    } else {
        weld_rows(w, x, numbers, nu, nv, flip);
    }
}
