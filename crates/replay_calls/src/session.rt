// The meshes A and B.
ghost use Rattle.std.specs.Prelude.{◌≡◌, false};
ghost use Rattle.replay_calls.specs.Sessions.{no_mesh, beginning, going_on, after_call, claimed};

use mesh_check::TriMesh;
use replay_format::Head;
use slice::wide;

// The record of A after a call, and whether its result was written.
// Not a Result: the clauses of replay::calls tell the record of a mesh that was not written too, and after_call keeps it.
#[derive(Clone, Copy)]
pub struct Answer {
    pub mesh: TriMesh,
    pub written: bool,
}

// A mesh as lent: its record, and the lengths of its two slices.
#[derive(Clone, Copy)]
pub struct Held {
    pub mesh: TriMesh,
    pub floats: usize,
    pub numbers: usize,
}

// A and B, and whether the run goes on.
// Not an Option of the two meshes: going_on, the clause of `going` and `stopped`, keeps both meshes of a run that ends.
#[derive(Clone, Copy)]
pub struct Session {
    pub a: Held,
    pub b: Held,
    pub going: bool,
}

fn empty() -> Held
    ensures { result ≡ no_mesh }
{
    Held {
        mesh: mesh_check::empty_record(),
        floats: 0,
        numbers: 0,
    }
}

// Two empty meshes.
pub fn begun() -> Session
    ensures { result ≡ beginning }
{
    Session {
        a: empty(),
        b: empty(),
        going: true,
    }
}

// The run goes on where the result was written.
pub fn going(s: Session, written: bool) -> Session
    ensures { result ≡ going_on s written }
{
    let mut t = s;
    t.going = written;
    t
}

pub fn stopped(s: Session) -> Session
    ensures { result ≡ going_on s false }
{
    going(s, false)
}

// A is what a call answered, in slices of these lengths.
pub fn after(s: Session, r: Answer, floats: usize, numbers: usize) -> Session
    ensures { result ≡ after_call s r floats numbers }
{
    let m = r.mesh;
    let b = s.b;
    Session {
        a: Held {
            mesh: m,
            floats: floats,
            numbers: numbers,
        },
        b: b,
        going: r.written,
    }
}

// The counts and the box that a case claims.
pub fn claimed_mesh(h: Head) -> TriMesh
    ensures { result ≡ claimed h }
{
    let bounds = h.bounds;
    mesh_check::record_of(wide(h.vertex_count), wide(h.triangle_count), bounds)
}
