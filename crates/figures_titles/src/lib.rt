// Titles of the program `figures`, what is drawn, put into a lent slice of bytes from place at on, as far as they fit. Each function answers the
// place after its text.
#![tactic(auto)]

ghost use Rattle.figures_titles.specs.Titles.{box_of, fineness_of, sphere_of, cylinder_of, shell_of, turned_box_of};
ghost use Rattle.slice_text.specs.Line.{line, Puts};

use figures_points::put_point;
use figures_text::{put_count, put_float};
use math::Vec3;
use slice_text::put;

// A box from the origin.
pub fn put_box(out: &mut [u8], at: usize, stop: Vec3) -> usize
    ensures { Puts (box_of stop) (line out.old at) (line out.new result) }
{
    let mut to = put(out, at, b"box (0,0,0) to ");
    to = put_point(out, to, stop);
    put(out, to, b": ")
}

// The segments and rings of a sphere.
fn put_fineness(out: &mut [u8], at: usize, segments: usize, rings: usize) -> usize
    ensures { Puts (fineness_of segments rings) (line out.old at) (line out.new result) }
{
    let mut to = put(out, at, b", ");
    to = put_count(out, to, segments);
    to = put(out, to, b" segments, ");
    to = put_count(out, to, rings);
    put(out, to, b" rings: ")
}

// A sphere, with its radius by name.
pub fn put_sphere(
    out: &mut [u8],
    at: usize,
    center: Vec3,
    name: &[u8],
    segments: usize,
    rings: usize,
) -> usize
    ensures { Puts (sphere_of center name.now segments rings) (line out.old at) (line out.new result) }
{
    let mut to = put(out, at, b"sphere at ");
    to = put_point(out, to, center);
    to = put(out, to, b", r = ");
    to = put(out, to, name);
    put_fineness(out, to, segments, rings)
}

// A cylinder along z from the origin, of length 1.
pub fn put_cylinder(out: &mut [u8], at: usize, radius: f64, segments: usize) -> usize
    ensures { Puts (cylinder_of radius segments) (line out.old at) (line out.new result) }
{
    let mut to = put(out, at, b"cylinder (0,0,0) to (0,0,1), r = ");
    to = put_float(out, to, radius);
    to = put(out, to, b", ");
    let after_count = put_count(out, to, segments);
    put(out, after_count, b" segments: ")
}

// A cylindrical shell of 3 segments.
pub fn put_shell(out: &mut [u8], at: usize, width: f64) -> usize
    ensures { Puts (shell_of width) (line out.old at) (line out.new result) }
{
    let mut to = put(out, at, b"shell (0,0,0) to (0,0,1), r = 1, width ");
    to = put_float(out, to, width);
    put(out, to, b", 3 segments: ")
}

// A turned box, with its angle by name.
pub fn put_turned_box(out: &mut [u8], at: usize, name: &[u8]) -> usize
    ensures { Puts (turned_box_of name.now) (line out.old at) (line out.new result) }
{
    let mut to = put(out, at, b"box (0,0,0) to (1,2,3) turned about z by ");
    to = put(out, to, name);
    put(out, to, b": ")
}
