// TessellationOptions::arc_segments of src/tessellate.rs, and its test for a full turn.
#![tactic(auto)]

ghost use Rattle.std.specs.Prelude.{◌≡◌, ◌≤◌};
ghost use Rattle.shape_arc.specs.Arc.{counted_span, arc_share, arc_segments, is_full};

use ieee::TAU;

// The span that counts: 0.0 for a NaN, else its absolute value, at most TAU.
fn counted_span(span: f64) -> f64
    ensures { result ≡ counted_span span }
{
    if span == span {
        ieee::min(ieee::abs(span), TAU)
    } else {
        0.0
    }
}

// full * span / TAU.
fn arc_share(segments: usize, span: f64) -> f64
    requires { segments ≤ 1024 }
    ensures { result ≡ arc_share segments span }
{
    let full = segments.max(3) as f64;
    full * counted_span(span) / TAU
}

// The Rust's arc_segments, an inner function: what calls it has refused more than 1,024 segments. The number of segments of an arc, where a full turn has
// `segments`.
pub fn arc_segments(segments: usize, span: f64) -> usize
    requires { segments ≤ 1024 }
    ensures { result ≡ arc_segments segments span }
{
    ieee_whole::ceil_to_usize(arc_share(segments, span)).max(1)
}

// Whether a span is a full turn.
pub fn is_full(span: f64) -> bool
    ensures { result ≡ is_full span }
{
    span >= TAU - 1e-12
}
