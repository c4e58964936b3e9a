// One solid of a file, drawn by `tessellate`.
#![tactic(auto)]

ghost use Rattle.fixture_next.specs.Job.{job_in};
ghost use Rattle.fixture_spec.specs.Outcome.{drawn};
ghost use Rattle.mesh_made.specs.Made.{GivesMade};
ghost use Rattle.fixture_job.specs.Drawable.{Drawable, Places};

use fixture_next::NextJob;
use mesh_check::TriMesh;
use refusal::Refusal;
use shape::Drawing;
use transform::Operations;

// The solid j of the file, whose operations stand from place at on, in slices of 1,024 vertex and 2,048 triangle places.
pub fn draw_job(
    file: &[u8],
    at: usize,
    j: NextJob,
    vertices: &mut [f64],
    triangles: &mut [u32],
    work: &mut [u32],
    list: &mut [f64],
) -> Result<TriMesh, Refusal>
    requires { Drawable file.now at j × Places vertices.old triangles.old work.old list.old }
    ensures { GivesMade (drawn (job_in file.now at j)) result vertices.new triangles.new work.new }
{
    let from = j.list_at;
    let n = j.list_floats;
    slice_byte_lists::get_floats(&file[from..], &mut list[..n]);
    let ops = fixture_next::next_ops(file, at);
    let operations = Operations {
        ops,
        count: j.count,
        degrees: j.degrees,
    };
    let d = Drawing {
        shape: j.shape,
        list: &list[..n],
        own: j.own,
        default: j.default,
        options: j.options,
        operations,
    };
    tessellate::tessellate(&d, vertices, triangles, work)
}
