// The next solid of a file.
ghost use Rattle.fixture_next.specs.Ready as Ready;
ghost use Rattle.fixture_next.specs.Next as Next;

use fixture_field::is_solid;
use fixture_payload::payload_at;
use fixture_solid::{Settings, settings_after};
use shape::{CoordSystem, TessellationOptions};

// The place of a solid's tag, and its settings.
#[derive(Clone, Copy)]
pub struct NextSolid {
    pub at: usize,
    pub settings: Settings,
}

// The next solid from a place on. Where there is none its place is the file's end.
pub fn next_solid(
    file: &[u8],
    from: usize,
    options: TessellationOptions,
    default: CoordSystem,
) -> NextSolid
    requires { Ready.Ready file.now from }
    ensures { Next.IsNext file.now from options default result.at result.settings }
{
    let mut at = from;
    let mut s = Settings {
        options,
        default,
        own: None,
        degrees: false,
        count: 0,
    };
    // A `while`: a field says itself how far the next one is, so no range counts them; an iterator of fields would be this step and its laws.
    while at < file.len() {
        let tag = file[at];
        if is_solid(tag) {
            return NextSolid { at, settings: s };
        }
        let p = payload_at(file, at);
        s = settings_after(s, tag, p);
        at = at + 3 + p.len();
    }
    NextSolid { at, settings: s }
}
