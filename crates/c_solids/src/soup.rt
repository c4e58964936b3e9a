// The welder over a whole soup that is lent, nine floats a triangle.
ghost use Rattle.mesh_made.specs.Made.{lent};
ghost use Rattle.weld_from_soup.specs.Soups.{from_soup_of};
ghost use Rattle.c_solids.specs.Answers.{Tells};

// The mesh of a soup in the lent slices, its counts and its box.
#[unsafe(no_mangle)]
pub extern "C" fn sizturga_bench_from_soup(
    soup: &[f64],
    vertices: &mut [f64],
    triangles: &mut [u32],
    work: &mut [u32],
    vertex_count: &mut usize,
    triangle_count: &mut usize,
    bounds: &mut [f64; 6],
) -> u32
    ensures { Tells
        (from_soup_of soup.now (lent vertices.old triangles.old work.old))
        result vertex_count.new triangle_count.new bounds.new vertices.new triangles.new work.new }
{
    let made = weld_from_soup::from_soup(soup, vertices, triangles, work);
    crate::told::tell(
        made,
        mesh_check::empty_record(),
        vertex_count,
        triangle_count,
        bounds,
    )
}
