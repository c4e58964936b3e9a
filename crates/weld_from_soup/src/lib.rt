// TriMesh::from_soup of src/tessellate.rs over lent memory: a soup in a slice, nine floats a triangle, becomes a mesh in the lent slices, or is refused.
#![tactic(auto)]

ghost use Rattle.std.specs.Prelude.{[], ◌∷◌, ◌≡◌, ◌+◌, ◌*◌, ◌≤◌, length};
ghost use Rattle.weld.specs.Rep.{Ready};
ghost use Rattle.weld.specs.Welding.{held_by, Welds};
ghost use Rattle.mesh_spec.specs.Mesh.{from_soup};
ghost use Rattle.mesh_made.specs.Made.{lent};
ghost use Rattle.mesh_made.specs.Steps.{Makes};
ghost use Rattle.weld_from_soup.specs.Soups.{triangle_at, soup_of, broken_soup, soup_refusal};
ghost use Rattle.weld_from_soup.specs.SoupPromise.{SoupPromise};

use mesh_check::TriMesh;
use mesh_triples::vertex;
use refusal::Refusal;
use weld::Welding;

// Welds triangle i.
fn weld_at(w: &mut Welding<'_>, soup: &[f64], i: usize)
    requires ready { Ready (held_by w.old) }
    requires i_in_bounds { 9 * i + 9 ≤ length soup.now }
    ensures { Welds (triangle_at soup.now i ∷ []) w.old w.new }
{
    let a = vertex(soup, 3 * i);
    let b = vertex(soup, 3 * i + 1);
    let c = vertex(soup, 3 * i + 2);
    weld_triangle::weld_triangle(w, a, b, c);
}

// Welds the triangles of a soup.
fn weld_each(w: &mut Welding<'_>, soup: &[f64])
    requires { Ready (held_by w.old) }
    ensures { Welds (soup_of soup.now) w.old w.new }
{
    for i in 0..soup.len() / 9 {
        weld_at(w, soup, i);
    }
}

// Refusal 4: floats beyond whole triangles.
fn is_broken(soup: &[f64]) -> bool
    ensures { result ≡ broken_soup soup.now }
{
    soup.len() % 9 != 0
}

// Welds a soup from an empty mesh, unless refusal 6 or 4 is due.
fn make(
    soup: &[f64],
    vertices: &mut [f64],
    triangles: &mut [u32],
    work: &mut [u32],
) -> Result<TriMesh, Refusal>
    ensures { Makes
        (soup_refusal soup.now (lent vertices.old triangles.old work.old))
        (from_soup (soup_of soup.now))
        result vertices.new triangles.new }
{
    if mesh_made::short_work(vertices.len(), work.len()) {
        return Err(Refusal::ShortWork);
    }
    if is_broken(soup) {
        return Err(Refusal::BadList);
    }
    let st = weld::begin(vertices, work);
    let mut w = Welding {
        st,
        vertices,
        triangles,
        work,
    };
    weld_each(&mut w, soup);
    weld::new_part(&mut w);
    let welded = w.st;
    mesh_made::judge(welded, vertices)
}

// from_soup: the mesh of a soup, nine floats a triangle, in the lent slices, or a refusal: 6, 4, 5 or 7.
pub fn from_soup(
    soup: &[f64],
    vertices: &mut [f64],
    triangles: &mut [u32],
    work: &mut [u32],
) -> Result<TriMesh, Refusal>
    ensures { SoupPromise
        soup.now (lent vertices.old triangles.old work.old)
        result vertices.new triangles.new work.new }
{
    let made = make(soup, vertices, triangles, work);
    mesh_made::end(made, vertices, triangles, work)
}
