// Whether a point is new, as far as the rows of vertices show it: see `weld_order`.
ghost use Rattle.std.specs.Prelude.{◌≡◌, true, ◌<◌};
ghost use Rattle.weld_vertex.specs.Points.{Clean};
ghost use Rattle.weld_hash.specs.Hash.{Distinct};
ghost use Rattle.weld.specs.Rep.{InRows};
ghost use Rattle.weld.specs.States.{Foresees};

use crate::Welder;
use math::Vec3;
use weld_order::Row;

// What is seen of a point before a search: the row after it where it is new, or nothing, and then it has to be searched for. The first
// point of a part is new, and so is one that continues the rows.
pub fn foresee(vertices: &[f64], w: &Welder, p: Vec3) -> Option<Row>
    requires { Distinct vertices.now w.now.places w.now.base w.now.count × InRows w.now vertices.now × Clean p }
    ensures { Foresees w.now vertices.now p result }
{
    if w.base == w.count {
        return Some(weld_order::first_row(p));
    }
    if w.ordered {
        return from_last(vertices, w, p);
    }
    None
}

// The same where there are vertices, and they came row by row.
fn from_last(vertices: &[f64], w: &Welder, p: Vec3) -> Option<Row>
    requires { Distinct vertices.now w.now.places w.now.base w.now.count × InRows w.now vertices.now × Clean p × (w.now.base < w.now.count) × (w.now.ordered ≡ true) }
    ensures { Foresees w.now vertices.now p result }
{
    let row = Row {
        near: w.near,
        rising: w.rising,
    };
    let last = mesh_triples::vertex(vertices, w.count - 1);
    if weld_order::is_among(row, last, p) {
        return None;
    }
    Some(weld_order::next_row(row, last, p))
}
