// The measures of a mesh in lent slices. Each checks the mesh first. They change nothing. A float is answered by its bits, which of a NaN are
// 7FF8000000000000.
// signed_volume, enclosed_volume and area have two lines after the check: one function over a closure would be longer than those six.
#![tactic(auto)]

ghost use Rattle.std.specs.Prelude.{◌≡◌};
ghost use Rattle.mesh_check.specs.State.{state};
ghost use Rattle.mesh_measures.specs.Measures.{GivesMeasure, GivesBox, signed_volume_of, area_of, enclosed_volume_of, bounding_box_of};
ghost use Rattle.mesh_measures.specs.Measures.{bits_answered, box_answered};

use math::BoundingBox;
use mesh_check::TriMesh;
use refusal::Refusal;

// The bits of the volume that the triangles enclose, positive where they are counter-clockwise seen from outside.
pub fn signed_volume(mesh: TriMesh, vertices: &[f64], triangles: &[u32]) -> Result<u64, Refusal>
    ensures { GivesMeasure (signed_volume_of (state mesh vertices.now triangles.now)) result }
{
    mesh_check::check(mesh, vertices, triangles)?;
    let x = mesh_sums::volume_sum(vertices, triangles, mesh.triangles) / 6.0;
    Ok(ieee::bits_of(x))
}

// The bits of the absolute value of the signed volume.
pub fn enclosed_volume(mesh: TriMesh, vertices: &[f64], triangles: &[u32]) -> Result<u64, Refusal>
    ensures { GivesMeasure (enclosed_volume_of (state mesh vertices.now triangles.now)) result }
{
    mesh_check::check(mesh, vertices, triangles)?;
    let x = ieee::abs(mesh_sums::volume_sum(vertices, triangles, mesh.triangles) / 6.0);
    Ok(ieee::bits_of(x))
}

// The bits of the area of all triangles.
pub fn area(mesh: TriMesh, vertices: &[f64], triangles: &[u32]) -> Result<u64, Refusal>
    ensures { GivesMeasure (area_of (state mesh vertices.now triangles.now)) result }
{
    mesh_check::check(mesh, vertices, triangles)?;
    let x = mesh_sums::area_sum(vertices, triangles, mesh.triangles);
    Ok(ieee::bits_of(x))
}

// The box of the vertices. The checks find it.
pub fn bounding_box(
    mesh: TriMesh,
    vertices: &[f64],
    triangles: &[u32],
) -> Result<BoundingBox, Refusal>
    ensures { GivesBox (bounding_box_of (state mesh vertices.now triangles.now)) result }
{
    mesh_check::check(mesh, vertices, triangles)
}

// The bits of a measure, 0 where it is refused.
pub fn bits_or_zero(measure: Result<u64, Refusal>) -> u64
    ensures { result ≡ bits_answered measure }
{
    measure.unwrap_or(0)
}

// The box that is answered, the box of zeros where it is refused.
pub fn box_or_zeros(boxed: Result<BoundingBox, Refusal>) -> BoundingBox
    ensures { result ≡ box_answered boxed }
{
    boxed.unwrap_or(mesh_box::zero_box())
}
