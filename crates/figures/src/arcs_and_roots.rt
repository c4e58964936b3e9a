// Segments of arcs, and roots.
use crate::written;
use figures_lines::{put_arc, put_root};
use ieee::{PI, TAU};

fn arc(name: &[u8], span: f64) {
    let mut line = [0u8; 160];
    let n = put_arc(&mut line, 0, name, shape_arc::arc_segments(32, span));
    written::write(&line, n);
}

fn root(name: &[u8], x: f64) {
    let mut line = [0u8; 160];
    let n = put_root(&mut line, 0, name, root::root_case(x), root::sqrt(x));
    written::write(&line, n);
}

pub(crate) fn all() {
    arc(b"0", 0.0);
    arc(b"PI", PI);
    arc(b"-PI", -PI);
    arc(b"TAU", TAU);
    root(b"4", 4.0);
    root(b"2", 2.0);
    root(b"0.5", 0.5);
    root(b"1.5", 1.5);
    root(b"3", 3.0);
    root(b"-0", -0.0);
    root(b"inf", ieee::from_bits(0x7ff0000000000000));
    root(b"-inf", ieee::from_bits(0xfff0000000000000));
    root(b"NaN", ieee::from_bits(0x7ff8000000000000));
    root(b"-1", -1.0);
    root(b"2^-1022", ieee::from_bits(0x0010000000000000));
    root(b"2^-1074", ieee::from_bits(1));
    root(b"the largest float", ieee::from_bits(0x7fefffffffffffff));
}
