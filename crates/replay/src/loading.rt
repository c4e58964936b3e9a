// Loading of lent slices from the input.
// Floats and words apart: one function over both would take the filling, the reading and the skipping as parameters.
use crate::input;
use replay_slices::{fill_floats, fill_words};

// Fills out with the first of n floats from the input, as far as they fit, and passes over the rest.
pub(crate) fn load_floats(out: &mut [f64], n: usize) -> bool {
    fill_floats(out);
    let k = n.min(out.len());
    if !input::floats(&mut out[..k]) {
        return false;
    }
    input::skip_floats(n - k)
}

// Fills out with the first of n numbers from the input, as far as they fit, and passes over the rest.
pub(crate) fn load_words(out: &mut [u32], n: usize) -> bool {
    fill_words(out);
    let k = n.min(out.len());
    if !input::words(&mut out[..k]) {
        return false;
    }
    input::skip_words(n - k)
}
