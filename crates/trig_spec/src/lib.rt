// Sine and cosine as definitions, in specs/. No functions.
#![tactic(auto)]

// The sine and the cosine of one angle.
#[derive(Clone, Copy)]
pub struct SinCos {
    pub sin: f64,
    pub cos: f64,
}
