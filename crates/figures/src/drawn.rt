// Runs tessellate.
use mesh::TriMesh;
use refusal::Refusal;
use shape::{CoordSystem, Drawing, Shape, TessellationOptions};
use transform::{Operations, TransformOp};

// The first `count` of 16 operations, each of them op, with an angle in radians.
pub(crate) fn operations(op: TransformOp, count: usize) -> Operations {
    Operations {
        ops: [op; 16],
        count,
        degrees: false,
    }
}

// The operations of a shape that stays as it is.
fn none() -> Operations {
    operations(TransformOp::Scale(1.0), 0)
}

// The shape in Cartesian coordinates under the operations.
fn tessellated(
    shape: Shape,
    options: TessellationOptions,
    operations: Operations,
    vertices: &mut [f64],
    triangles: &mut [u32],
) -> Result<TriMesh, Refusal> {
    let mut work = [0u32; 2052];
    let d = Drawing {
        shape,
        list: &[],
        own: None,
        default: CoordSystem::Cartesian,
        options,
        operations,
    };
    tessellate::tessellate(&d, vertices, triangles, &mut work)
}

// The shape in the lent slices.
pub(crate) fn draw(
    shape: Shape,
    segments: usize,
    sphere_rings: usize,
    vertices: &mut [f64],
    triangles: &mut [u32],
) -> Result<TriMesh, Refusal> {
    let options = TessellationOptions {
        segments,
        sphere_rings,
    };
    tessellated(shape, options, none(), vertices, triangles)
}

// A shape under the operations.
// There is room for 1,026 vertices and 2,048 triangles: the sphere of 1,024 segments and 2 rings.
fn counted(
    shape: Shape,
    options: TessellationOptions,
    operations: Operations,
) -> Result<TriMesh, Refusal> {
    let mut vertices = [0.0; 3078];
    let mut triangles = [0u32; 6144];
    tessellated(shape, options, operations, &mut vertices, &mut triangles)
}

// The counts of a shape.
pub(crate) fn counts(
    shape: Shape,
    segments: usize,
    sphere_rings: usize,
) -> Result<TriMesh, Refusal> {
    let options = TessellationOptions {
        segments,
        sphere_rings,
    };
    counted(shape, options, none())
}

// The counts of a shape under one operation.
pub(crate) fn moved(shape: Shape, op: TransformOp) -> Result<TriMesh, Refusal> {
    let options = TessellationOptions {
        segments: 32,
        sphere_rings: 16,
    };
    counted(shape, options, operations(op, 1))
}
