// The steps of the welder's state, each in its place.
ghost use Rattle.std.specs.Prelude.{◌≡◌, ◌<◌, ◌^◌, Some, None};
ghost use Rattle.weld.specs.States.{unfinite, shut, more, more_at, more_faces, settled};

use crate::Welder;
use weld_order::Row;

impl Welder {
    // A point was not finite.
    pub fn stop(&mut self)
        ensures { self.new ≡ unfinite self.old }
    {
        self.finite = false;
    }

    // The mesh did not fit.
    pub fn shut(&mut self)
        ensures { self.new ≡ shut self.old }
    {
        self.room = false;
    }

    // A new vertex, which the rows showed to be new, and the row after it.
    pub fn add_in_row(&mut self, row: Row)
        requires { self.old.count < 2 ^ 32 }
        ensures { self.new ≡ more self.old (Some row) }
    {
        self.add(row, true);
    }

    // A new vertex that was searched for: it is in a chain.
    pub fn add_searched(&mut self)
        requires { self.old.count < 2 ^ 32 }
        ensures { self.new ≡ more self.old None }
    {
        let none = Row {
            near: 0.0,
            rising: false,
        };
        self.add(none, false);
    }

    // A new vertex, and the row of the last one.
    fn add(&mut self, row: Row, ordered: bool)
        requires { self.old.count < 2 ^ 32 }
        ensures { self.new ≡ more_at self.old row ordered }
    {
        self.count += 1;
        self.near = row.near;
        self.ordered = ordered;
        self.rising = row.rising;
    }

    // A new triangle.
    pub fn add_face(&mut self)
        requires { self.old.faces < 2 ^ 32 }
        ensures { self.new ≡ more_faces self.old }
    {
        self.faces += 1;
    }

    // All vertices of this part went into the chains.
    pub fn settle(&mut self)
        ensures { self.new ≡ settled self.old }
    {
        self.ordered = false;
    }
}
