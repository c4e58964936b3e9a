// Outlines: cleaning and clipping.
use crate::written;
use figures_outlines::{put_cleaned, put_clipped};

fn clean(v: &[f64; 10]) {
    let mut line = [0u8; 160];
    let mut out = [0.0; 10];
    let k = outline_clean::clean_polygon(v, &mut out);
    let n = put_cleaned(&mut line, 0, v, &out, k);
    written::write(&line, n);
}

fn clip(v: &[f64]) {
    let mut line = [0u8; 160];
    let mut t = [0u32; 6];
    let cut = outline_clip::cut_or_zeros(outline_clip::clip_outline(v, &mut t));
    let n = put_clipped(&mut line, 0, v, &t, cut.triangles, cut.removed);
    written::write(&line, n);
}

pub(crate) fn all() {
    clean(&[0.0, 0.0, 0.0, 0.0, 1.0, 0.0, 1.0, 1.0, 0.0, 0.0]);
    clip(&[0.0, 0.0, 1.0, 0.0, 1.0, 1.0, 0.0, 1.0]);
    clip(&[0.0, 0.0, 1.0, 0.0, 2.0, 0.0, 3.0, 0.0]);
    clip(&[0.0, 0.0, 1.0, 0.0]);
}
