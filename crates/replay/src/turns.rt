// The run: case by case.
use replay_calls::Session;

// The next case. The run ends where none is left.
fn step(
    s: Session,
    va: &mut [f64; 196608],
    ta: &mut [u32; 393216],
    vb: &mut [f64; 196608],
    tb: &mut [u32; 393216],
    work: &mut [u32; 131072],
    list: &mut [f64; 4096],
) -> Session {
    let mut buf = [0u8; 65536];
    let next = crate::reading::next(&mut buf);
    let ops = replay_head::operations(next, &buf);
    let c = crate::reading::listed(next, list);
    crate::steps::call(s, c, ops, va, ta, vb, tb, work, list)
}

// All cases, in no more turns than a run can have.
pub(crate) fn run(
    va: &mut [f64; 196608],
    ta: &mut [u32; 393216],
    vb: &mut [f64; 196608],
    tb: &mut [u32; 393216],
    work: &mut [u32; 131072],
    list: &mut [f64; 4096],
) {
    let mut s = replay_calls::begun();
    for _ in 0..u64::MAX {
        s = step(s, va, ta, vb, tb, work, list);
        if !s.going {
            return;
        }
    }
}
