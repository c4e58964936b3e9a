// The next solid of the file, drawn and added to the output.
ghost use Rattle.std.specs.Prelude.{◌≡◌, length, take, ◌*◌};
ghost use Rattle.fixture_job.specs.Drawable.{Places};
ghost use Rattle.fixture_output.specs.Laid.{Added};
ghost use Rattle.fixture_draw.specs.Drawing.{onward, Going, Stepped, Placing};

use crate::Walk;
use fixture_job::draw_job;
use fixture_next::NextJob;
use mesh_check::TriMesh;
use refusal::Refusal;

// Adds the solid j, whose mesh the slices hold, and goes on behind it.
fn place(
    out: &mut [u8],
    w: Walk,
    j: NextJob,
    mesh: TriMesh,
    vertices: &[f64],
    triangles: &[u32],
) -> Walk
    requires { Placing (length out.old) w mesh vertices.now triangles.now }
    ensures { (result ≡ onward w j mesh)
        × Added out.old w.vertices w.triangles
        (take (3 * mesh.vertices) vertices.now) (take (3 * mesh.triangles) triangles.now) out.new }
{
    let v = w.vertices;
    let t = w.triangles;
    let n = mesh.vertices;
    let k = mesh.triangles;
    fixture_output::add(out, v, t, &vertices[..3 * n], &triangles[..3 * k]);
    Walk {
        at: j.next,
        options: j.options,
        default: j.default,
        vertices: v + n,
        triangles: t + k,
    }
}

// The walk after the next solid, or the refusal of that solid. It is at the file's end where there is none.
fn step(
    file: &[u8],
    w: Walk,
    vertices: &mut [f64],
    triangles: &mut [u32],
    work: &mut [u32],
    list: &mut [f64],
    out: &mut [u8],
) -> Result<Walk, Refusal>
    requires { Going file.now w out.old × Places vertices.old triangles.old work.old list.old }
    ensures { Stepped file.now w result (length out.old) out.new }
{
    let Some(j) = fixture_next::next_job(file, w.at, w.options, w.default) else {
        return Ok(Walk {
            at: file.len(),
            ..w
        });
    };
    let mesh = draw_job(file, w.at, j, vertices, triangles, work, list)?;
    Ok(place(out, w, j, mesh, vertices, triangles))
}

// The same in arrays of the sizes that a solid is lent.
// Apart from step: the lengths of these arrays give what the clause `Places` of step asks for.
pub(crate) fn draw_next(
    file: &[u8],
    w: Walk,
    vertices: &mut [f64; 3072],
    triangles: &mut [u32; 6144],
    work: &mut [u32; 2048],
    list: &mut [f64; 8192],
    out: &mut [u8],
) -> Result<Walk, Refusal>
    requires { Going file.now w out.old }
    ensures { Stepped file.now w result (length out.old) out.new }
{
    step(file, w, vertices, triangles, work, list, out)
}
