// What the measures of a mesh add up over the triangles, in its lent slices: the volume and the area. Nothing is written.
#![tactic(auto)]

ghost use Rattle.std.specs.Prelude.{◌≡◌, ◌+◌, ◌*◌, ◌≤◌, ◌<◌, length, get_or};
ghost use Rattle.std.specs.Float.{binary64};
ghost use Rattle.std.specs.Float.Ieee.{of_bits};
ghost use Rattle.mesh_spec.specs.Measures.{volume_term, area_term, sum_of};
ghost use Rattle.mesh_spec.specs.Slices.{vertex_at};
ghost use Rattle.mesh_triples.specs.Triples.{corners_at, corners_of, CornersWithin, AllWithin};

use math::Vec3;
use mesh_triples::vertex;
use slice::wide;

// The vertex whose number stands at place at of the triangles.
fn corner(vertices: &[f64], triangles: &[u32], at: usize) -> Vec3
    requires { (at < length triangles.now) × (3 * get_or triangles.now at 0 + 3 ≤ length vertices.now) }
    ensures { result ≡ vertex_at vertices.now (get_or triangles.now at 0) }
{
    vertex(vertices, wide(triangles[at]))
}

// The term of triangle i in the volume.
fn volume_term(vertices: &[f64], triangles: &[u32], i: usize) -> f64
    requires { CornersWithin vertices.now triangles.now i }
    ensures { result ≡ volume_term (corners_at vertices.now triangles.now i) }
{
    let at = 3 * i;
    let a = corner(vertices, triangles, at);
    let b = corner(vertices, triangles, at + 1);
    let c = corner(vertices, triangles, at + 2);
    math_norm::dot(a, math_norm::cross(b, c))
}

// The area of triangle i. The norm is written out: a call of norm would hand the vector over in memory.
fn area_term(vertices: &[f64], triangles: &[u32], i: usize) -> f64
    requires { CornersWithin vertices.now triangles.now i }
    ensures { result ≡ area_term (corners_at vertices.now triangles.now i) }
{
    let at = 3 * i;
    let a = corner(vertices, triangles, at);
    let b = corner(vertices, triangles, at + 1);
    let c = corner(vertices, triangles, at + 2);
    root::sqrt(math_norm::norm_sq(math_norm::cross(b - a, c - a))) / 2.0
}

// The sum of the volume terms of the first k triangles.
// Apart from area_sum, a loop of one line: over one function with a closure each would state what its term gives, which is longer than the loop.
pub fn volume_sum(vertices: &[f64], triangles: &[u32], k: usize) -> f64
    requires { AllWithin vertices.now triangles.now k }
    ensures { result ≡ sum_of volume_term (of_bits binary64 0) (corners_of vertices.now triangles.now k) }
{
    let mut sum = 0.0;
    for i in 0..k {
        sum = sum + volume_term(vertices, triangles, i);
    }
    sum
}

// The sum of the areas of the first k triangles.
pub fn area_sum(vertices: &[f64], triangles: &[u32], k: usize) -> f64
    requires { AllWithin vertices.now triangles.now k }
    ensures { result ≡ sum_of area_term (of_bits binary64 0) (corners_of vertices.now triangles.now k) }
{
    let mut sum = 0.0;
    for i in 0..k {
        sum = sum + area_term(vertices, triangles, i);
    }
    sum
}
