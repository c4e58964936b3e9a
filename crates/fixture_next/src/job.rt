// The next solid of a file with what `tessellate` takes beside it, but for its operations.
ghost use Rattle.std.specs.Prelude.{◌≡◌};
ghost use Rattle.fixture_next.specs.Ready as Ready;
ghost use Rattle.fixture_next.specs.Job as Job;

use crate::next::next_solid;
use fixture_solid::{Settings, SolidField, solid_at};
use shape::{CoordSystem, Shape, TessellationOptions};

// Its shape, its settings and the count of its operations; where its list starts and how many floats that has; where to go on.
#[derive(Clone, Copy)]
pub struct NextJob {
    pub shape: Shape,
    pub own: Option<CoordSystem>,
    pub default: CoordSystem,
    pub options: TessellationOptions,
    pub degrees: bool,
    pub count: usize,
    pub list_at: usize,
    pub list_floats: usize,
    pub next: usize,
}

// Settings and a field as one.
fn joined(s: Settings, f: SolidField) -> NextJob
    ensures { result ≡ Job.joined s f }
{
    NextJob {
        shape: f.shape,
        own: s.own,
        default: s.default,
        options: s.options,
        degrees: s.degrees,
        count: s.count,
        list_at: f.list_at,
        list_floats: f.list_floats,
        next: f.next,
    }
}

// The next solid from a place on, if there is one, where 01 and 02 have set the options and the default system.
pub fn next_job(
    file: &[u8],
    at: usize,
    options: TessellationOptions,
    default: CoordSystem,
) -> Option<NextJob>
    requires { Ready.Ready file.now at }
    ensures { Job.IsJob file.now at options default result }
{
    let n = next_solid(file, at, options, default);
    let place = n.at;
    if file.len() <= place {
        return None;
    }
    let f = solid_at(file, place);
    Some(joined(n.settings, f))
}
