// All solids of a file.
ghost use Rattle.std.specs.Prelude.{◌≡◌, length};
ghost use Rattle.fixture_draw.specs.Drawing.{start, Begins, Drawn};

use crate::Walk;
use crate::next::draw_next;
use refusal::Refusal;
use shape::{CoordSystem, TessellationOptions};

// The walk before the first solid: 32 segments, 16 rings, Cartesian.
fn begun() -> Walk
    ensures { result ≡ start }
{
    Walk {
        at: 0,
        options: TessellationOptions {
            segments: 32,
            sphere_rings: 16,
        },
        default: CoordSystem::Cartesian,
        vertices: 0,
        triangles: 0,
    }
}

// Draws the solids of a file whose fields are sound into an output of zeros. Each is drawn once, in the same local arrays; a refused one ends the walk.
pub fn draw_all(file: &[u8], out: &mut [u8]) -> Result<Walk, Refusal>
    requires { Begins file.now out.old }
    ensures { Drawn file.now result (length out.old) out.new }
{
    let mut vertices = [0.0; 3072];
    let mut triangles = [0u32; 6144];
    let mut work = [0u32; 2048];
    let mut list = [0.0; 8192];
    let mut w = begun();
    // A `while`: a solid says itself where the next field is, so no range counts them.
    while w.at < file.len() {
        w = draw_next(
            file,
            w,
            &mut vertices,
            &mut triangles,
            &mut work,
            &mut list,
            out,
        )?;
    }
    Ok(w)
}
