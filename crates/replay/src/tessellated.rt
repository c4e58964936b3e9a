// Call 1: the solid of a case.
use replay_calls::{Answer, Session, after};
use replay_format::Head;
use replay_head::{Case, own_system, system};
use shape::{Drawing, TessellationOptions};
use slice::wide;
use transform::{Operations, TransformOp};

// The operations of a case, as many as its head counts.
pub(crate) fn operations(h: Head, ops: [TransformOp; 16]) -> Operations {
    Operations {
        ops,
        count: wide(h.op_count),
        degrees: h.degrees == 1,
    }
}

// What a case draws, with its list and its operations.
fn drawing<'a>(c: Case, ops: [TransformOp; 16], list: &'a [f64]) -> Drawing<'a> {
    let h = c.head;
    Drawing {
        shape: c.shape,
        list,
        own: own_system(h.own_system),
        default: system(h.default_system),
        options: TessellationOptions {
            segments: wide(h.segments),
            sphere_rings: wide(h.sphere_rings),
        },
        operations: operations(h, ops),
    }
}

// Draws the solid in filled slices, and writes it.
fn drawn(
    c: Case,
    ops: [TransformOp; 16],
    vertices: &mut [f64],
    triangles: &mut [u32],
    work: &mut [u32],
    list: &[f64],
) -> Answer {
    replay_slices::fill_slices(vertices, triangles, work);
    let d = drawing(c, ops, list);
    let made = tessellate::tessellate(&d, vertices, triangles, work);
    crate::written::drawn(made, vertices, triangles, work)
}

// 1: tessellates into A, in the parts of the arrays that the case has.
pub(crate) fn tessellate(
    s: Session,
    c: Case,
    ops: [TransformOp; 16],
    va: &mut [f64],
    ta: &mut [u32],
    work: &mut [u32],
    list: &[f64],
) -> Session {
    let h = c.head;
    let n = wide(h.vertex_floats).min(va.len());
    let k = wide(h.triangle_numbers).min(ta.len());
    let w = wide(h.work_numbers).min(work.len());
    let l = wide(h.list_floats).min(list.len());
    let r = drawn(
        c,
        ops,
        &mut va[..n],
        &mut ta[..k],
        &mut work[..w],
        &list[..l],
    );
    after(s, r, n, k)
}
