// The last input that is taken, and the first that is refused.
use crate::{drawings, drawn, written};
use figures_titles::put_turned_box;
use shape::Shape;
use slice_text::put;
use transform::TransformOp;

fn first_box() -> Shape {
    Shape::Box {
        start: drawings::at(0.0, 0.0, 0.0),
        stop: drawings::at(1.0, 2.0, 3.0),
    }
}

// The first box, turned about z by an angle with a name.
fn about_z(name: &[u8], angle: f64) {
    let mut line = [0u8; 160];
    let n = put_turned_box(&mut line, 0, name);
    let made = drawn::moved(first_box(), TransformOp::RotateZ(angle));
    written::counts(&mut line, n, made);
}

fn segments() {
    let origin = drawings::at(0.0, 0.0, 0.0);
    drawings::sphere(origin, b"1", 1.0, 1024, 2);
    drawings::sphere(origin, b"1", 1.0, 1025, 2);
}

fn angles() {
    // 1000.0 has the bits 408F400000000000.
    let next = ieee::from_bits(0x408F400000000001);
    about_z(b"1000", 1000.0);
    about_z(b"the float after 1000", next);
}

fn wide_box() {
    let shape = Shape::Box {
        start: drawings::at(-1e308, 0.0, 0.0),
        stop: drawings::at(1e308, 1.0, 1.0),
    };
    let mut line = [0u8; 160];
    let n = put(&mut line, 0, b"box (-1e308,0,0) to (1e308,1,1): ");
    written::counts(&mut line, n, drawn::counts(shape, 32, 16));
}

fn seven_places() {
    let mut line = [0u8; 160];
    let mut v = [0.0; 21];
    let mut t = [0u32; 36];
    let n = put(&mut line, 0, b"box (0,0,0) to (1,2,3) in 7 vertex places: ");
    let made = drawn::draw(first_box(), 32, 16, &mut v, &mut t);
    written::counts(&mut line, n, made);
}

pub(crate) fn all() {
    segments();
    angles();
    wide_box();
    seven_places();
}
