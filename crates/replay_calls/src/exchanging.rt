// Exchanging A and B.
ghost use Rattle.std.specs.Prelude.{◌≡◌};
ghost use Rattle.replay_calls.specs.Sessions.{exchanged};
ghost use Rattle.replay_slices.specs.Swapped.{swapped};

use crate::session::Session;
use replay_slices::swap;

// Exchanges A and B, with the content of their arrays.
pub fn exchange(
    s: Session,
    va: &mut [f64],
    ta: &mut [u32],
    vb: &mut [f64],
    tb: &mut [u32],
) -> Session
    ensures value { result ≡ exchanged s }
    ensures va_after { (va.new ≡ swapped vb.old va.old) × (vb.new ≡ swapped va.old vb.old) }
    ensures ta_after { (ta.new ≡ swapped tb.old ta.old) × (tb.new ≡ swapped ta.old tb.old) }
{
    swap(va, vb);
    swap(ta, tb);
    let a = s.a;
    let b = s.b;
    Session {
        a: b,
        b: a,
        going: s.going,
    }
}
