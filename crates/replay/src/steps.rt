// The calls by their numbers, each on the parts of the arrays that its mesh or its case has.
use crate::tessellated::{operations, tessellate};
use crate::{calls, output};
use replay_calls::{Session, after, going, stopped};
use replay_format::Head;
use replay_head::Case;
use slice::wide;
use transform::TransformOp;

// 6: measures A.
fn measure(s: Session, va: &[f64], ta: &[u32]) -> Session {
    let a = s.a;
    let n = a.floats.min(va.len());
    let k = a.numbers.min(ta.len());
    let m = a.mesh;
    let written = calls::measure(m, &va[..n], &ta[..k]);
    going(s, written)
}

// 2: clips an outline. The meshes stay as they are.
fn clip(s: Session, h: Head, work: &mut [u32], list: &[f64]) -> Session {
    let k = wide(h.triangle_numbers).min(work.len());
    let n = wide(h.list_floats).min(list.len());
    let written = calls::clip(&list[..n], &mut work[..k]);
    going(s, written)
}

// 8: loads A from the input.
fn load(s: Session, h: Head, va: &mut [f64], ta: &mut [u32]) -> Session {
    let n = wide(h.vertex_floats).min(va.len());
    let k = wide(h.triangle_numbers).min(ta.len());
    let r = calls::load(h, &mut va[..n], &mut ta[..k]);
    after(s, r, n, k)
}

// 3: appends B to A.
fn append(s: Session, va: &mut [f64], ta: &mut [u32], vb: &[f64], tb: &[u32]) -> Session {
    let a = s.a;
    let b = s.b;
    let n = a.floats.min(va.len());
    let k = a.numbers.min(ta.len());
    let p = b.floats.min(vb.len());
    let q = b.numbers.min(tb.len());
    let m = a.mesh;
    let other = b.mesh;
    let r = calls::append(m, &mut va[..n], &mut ta[..k], other, &vb[..p], &tb[..q]);
    after(s, r, n, k)
}

// 4: flips A.
fn flip(s: Session, va: &[f64], ta: &mut [u32]) -> Session {
    let a = s.a;
    let n = a.floats.min(va.len());
    let k = a.numbers.min(ta.len());
    let m = a.mesh;
    let r = calls::flip(m, &va[..n], &mut ta[..k]);
    after(s, r, n, k)
}

// 5: transforms A.
fn transform(
    s: Session,
    h: Head,
    ops: [TransformOp; 16],
    va: &mut [f64],
    ta: &mut [u32],
) -> Session {
    let a = s.a;
    let n = a.floats.min(va.len());
    let k = a.numbers.min(ta.len());
    let m = a.mesh;
    let r = calls::transform(m, &mut va[..n], &mut ta[..k], &operations(h, ops));
    after(s, r, n, k)
}

// 7: exchanges A and B.
fn exchange(s: Session, va: &mut [f64], ta: &mut [u32], vb: &mut [f64], tb: &mut [u32]) -> Session {
    let t = replay_calls::exchange(s, va, ta, vb, tb);
    going(t, output::word(0))
}

// A call by its number. Any number that is no call's ends the run.
pub(crate) fn call(
    s: Session,
    c: Case,
    ops: [TransformOp; 16],
    va: &mut [f64],
    ta: &mut [u32],
    vb: &mut [f64],
    tb: &mut [u32],
    work: &mut [u32],
    list: &[f64],
) -> Session {
    let h = c.head;
    // A match and no table of functions: each call is lent other arrays, and a table would lend all of them to each.
    match h.what {
        1 => tessellate(s, c, ops, va, ta, work, list),
        2 => clip(s, h, work, list),
        3 => append(s, va, ta, vb, tb),
        4 => flip(s, va, ta),
        5 => transform(s, h, ops, va, ta),
        6 => measure(s, va, ta),
        7 => exchange(s, va, ta, vb, tb),
        8 => load(s, h, va, ta),
        _ => stopped(s),
    }
}
