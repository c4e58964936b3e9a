// Points that come row by row, as those of a sphere do: each row below the one before, and in a row x falls and then, on the other side, rises.
// Whether a point is new is seen from the last one then, with no search.
#![tactic(auto)]

ghost use Rattle.std.specs.Prelude.{◌≡◌, true, false};
ghost use Rattle.weld_vertex.specs.Points.{Clean};
ghost use Rattle.weld_order.specs.Rows.{beside, among, first_row, next_row, Follows};

use math::Vec3;

// The row of the last point. While x falls, y is `near` or more; once `rising`, each point of the row has such a y or is left of the last.
#[derive(Clone, Copy)]
pub struct Row {
    pub near: f64,
    pub rising: bool,
}

// Whether a point at the height of the row may be one of its points.
fn is_beside(row: Row, last: Vec3, p: Vec3) -> bool
    ensures { result ≡ beside row last p }
{
    let rising = row.rising;
    if rising {
        if row.near <= p.y {
            return true;
        }
        return p.x <= last.x;
    }
    if last.x <= p.x {
        return row.near <= p.y;
    }
    false
}

// Whether p may be among the points so far: it lies above the row, or beside.
pub fn is_among(row: Row, last: Vec3, p: Vec3) -> bool
    ensures { result ≡ among row last p }
{
    if last.z < p.z {
        return true;
    }
    if last.z == p.z {
        return is_beside(row, last, p);
    }
    false
}

// The row of a single point.
pub fn first_row(p: Vec3) -> Row
    requires { Clean p }
    ensures { (result ≡ first_row p) × (among result p p ≡ true) }
{
    Row {
        near: p.y,
        rising: false,
    }
}

// The row after p, which is none of the points so far.
pub fn next_row(row: Row, last: Vec3, p: Vec3) -> Row
    requires { Clean last × Clean p × (among row last p ≡ false) }
    ensures { (result ≡ next_row row last p) × Follows row last p result }
{
    if last.z == p.z {
        if row.near <= p.y {
            return Row {
                near: row.near,
                rising: false,
            };
        }
        return Row {
            near: row.near,
            rising: true,
        };
    }
    Row {
        near: p.y,
        rising: false,
    }
}
