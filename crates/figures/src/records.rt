// The box in the record of a mesh: after it was drawn, after it was scaled, and one that is not right.
use crate::{drawn, written};
use figures_lines::put_bounds;
use mesh::TriMesh;
use slice_text::put;
use transform::TransformOp;

// The box in the record of m, by the name of the mesh.
fn bounds(name: &[u8], m: TriMesh) {
    let mut line = [0u8; 160];
    let b = m.bounds;
    let n = put_bounds(&mut line, 0, name, b);
    written::write(&line, n);
}

// The record handed to flip.
fn flipped(title: &[u8], m: TriMesh, v: &[f64], t: &mut [u32]) {
    let mut line = [0u8; 160];
    let n = put(&mut line, 0, title);
    written::counts(&mut line, n, mesh::flip(m, v, t));
}

// The mesh as drawn, and scaled by −2.
pub(crate) fn all(m: TriMesh, v: &mut [f64], t: &mut [u32]) {
    bounds(b"  ", m);
    let operations = drawn::operations(TransformOp::Scale(-2.0), 1);
    let scaled = mesh::transform(m, v, t, &operations);
    bounds(b"  scaled by -2: ", mesh::record_after(m, scaled));
    flipped(
        b"  scaled by -2, flipped with the box from before: ",
        m,
        v,
        t,
    );
}
