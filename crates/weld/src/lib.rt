// The state in which from_soup of src/tessellate.rs runs, one triangle at a time: the soup is not stored. A mesh lies in lent
// slices, three floats a vertex and three numbers a triangle; the work slice holds the hash chains of `weld_hash`.
#![tactic(auto)]

ghost use Rattle.std.specs.Prelude.{◌≡◌, ◌*◌, ◌/◌, ◌≤◌, length};
ghost use Rattle.weld.specs.Rep.{Begun};
ghost use Rattle.weld.specs.Welding.{NewPart};

mod foresight;
mod point;
mod states;

pub use foresight::foresee;
use math::Vec3;
pub use point::plus_zero;

// The state of the welder. `base` vertices belong to the parts before this one, `count` vertices and `faces` triangles are
// written, and `places` vertices fit. `finite` is false once a point was not finite, `room` once the mesh did not fit. While
// the vertices of this part come row by row, `ordered` is true, and `near` and `rising` are the row of the last one, see `weld_order`.
// They go into the chains when one is searched for; from then on `ordered` is false.
// Two flags, not one refusal: after the mesh did not fit, points are still tested, and one that is not finite then is the refusal that counts.
#[derive(Clone, Copy)]
pub struct Welder {
    pub base: usize,
    pub count: usize,
    pub places: usize,
    pub faces: usize,
    pub near: f64,
    pub finite: bool,
    pub room: bool,
    pub ordered: bool,
    pub rising: bool,
}

// A mesh while it is welded: the welder's state, and the slices that were lent for the vertices, the triangles and the hash chains.
#[derive(Drop)]
pub struct Welding<'a> {
    pub st: Welder,
    pub vertices: &'a mut [f64],
    pub triangles: &'a mut [u32],
    pub work: &'a mut [u32],
}

// The points of a quad.
#[derive(Clone, Copy)]
pub struct Four {
    pub a: Vec3,
    pub b: Vec3,
    pub c: Vec3,
    pub d: Vec3,
}

// Their numbers, or guesses at them.
#[derive(Clone, Copy)]
pub struct FourNumbers {
    pub a: usize,
    pub b: usize,
    pub c: usize,
    pub d: usize,
}

// Nothing is welded yet. The work slice becomes all zero: no vertex is in a chain.
pub fn begin(vertices: &[f64], work: &mut [u32]) -> Welder
    requires { 2 * (length vertices.now / 3) ≤ length work.old }
    ensures { Begun result vertices.now work.new }
{
    slice::clear_from(work, 0, 0);
    Welder {
        base: 0,
        count: 0,
        places: slice::counted_places(vertices.len()),
        faces: 0,
        near: 0.0,
        finite: true,
        room: true,
        ordered: false,
        rising: false,
    }
}

// A new part: its points are matched with its own vertices alone.
pub fn new_part(w: &mut Welding<'_>)
    ensures { NewPart w.old w.new }
{
    w.st.base = w.st.count;
    w.st.near = 0.0;
    w.st.ordered = false;
    w.st.rising = false;
}
