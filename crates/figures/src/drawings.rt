// The solids with their counts.
use crate::{drawn, records, written};
use figures_lines::{put_border, put_first, put_measures};
use figures_quarters::put_quarters;
use figures_text::put_counts;
use figures_titles::{put_box, put_cylinder, put_shell, put_sphere};
use math::Vec3;
use mesh::TriMesh;
use refusal::Refusal;
use shape::Shape;

pub(crate) fn at(x: f64, y: f64, z: f64) -> Vec3 {
    Vec3 { x: x, y: y, z: z }
}

// Whether the mesh is closed.
fn is_closed(m: TriMesh, t: &[u32]) -> bool {
    let k = m.triangles;
    if t.len() / 3 < k {
        return false;
    }
    mesh_closed::closed(m.vertices, &t[..3 * k])
}

// The counts of a mesh and whether it is closed, after a title of n bytes that the line begins with.
fn closed_or_open(line: &mut [u8], n: usize, made: Result<TriMesh, Refusal>, t: &[u32]) {
    let m = mesh_made::record_made(made);
    let mut to = put_counts(line, n, refusal::number(made), m);
    to = put_border(line, to, is_closed(m, t));
    written::write(line, to);
}

fn measures(m: TriMesh, v: &[f64], t: &[u32]) {
    let mut line = [0u8; 160];
    let area = mesh::area(m, v, t);
    let volume = mesh::signed_volume(m, v, t);
    let n = put_measures(&mut line, 0, area, volume);
    written::write(&line, n);
}

// The first points and triangles.
fn first(v: &[f64], t: &[u32]) {
    let mut line = [0u8; 160];
    let n = put_first(&mut line, 0, v, t);
    written::write(&line, n);
}

// A box from the origin, and, where they are asked, its first points and triangles and the box in its record.
fn box_to(stop: Vec3, begin: bool) {
    let shape = Shape::Box {
        start: at(0.0, 0.0, 0.0),
        stop: stop,
    };
    let mut line = [0u8; 160];
    let mut v = [0.0; 24];
    let mut t = [0u32; 36];
    let n = put_box(&mut line, 0, stop);
    let made = drawn::draw(shape, 32, 16, &mut v, &mut t);
    let m = mesh_made::record_made(made);
    closed_or_open(&mut line, n, made, &t);
    measures(m, &v, &t);
    if begin {
        first(&v, &t);
        records::all(m, &mut v, &mut t);
    }
}

pub(crate) fn boxes() {
    box_to(at(1.0, 2.0, 3.0), true);
    box_to(at(1.0, 2.0, 0.0), false);
}

// A sphere, with its radius by name.
pub(crate) fn sphere(center: Vec3, name: &[u8], radius: f64, segments: usize, rings: usize) {
    let shape = Shape::Sphere {
        center: center,
        radius: radius,
    };
    let mut line = [0u8; 160];
    let n = put_sphere(&mut line, 0, center, name, segments, rings);
    written::counts(&mut line, n, drawn::counts(shape, segments, rings));
}

pub(crate) fn spheres() {
    let origin = at(0.0, 0.0, 0.0);
    let least = ieee::from_bits(1);
    sphere(origin, b"0", 0.0, 32, 16);
    sphere(origin, b"1", 1.0, 3, 2);
    sphere(origin, b"1", 1.0, 32, 16);
    sphere(at(1.0, 1.0, 1.0), b"2^-1074", least, 32, 16);
}

// A cylinder along z from the origin, of length 1.
fn upright(radius: f64) -> Shape {
    Shape::Cylinder {
        start: at(0.0, 0.0, 0.0),
        stop: at(0.0, 0.0, 1.0),
        radius: radius,
    }
}

fn cylinder(radius: f64, v: &mut [f64], t: &mut [u32]) {
    let mut line = [0u8; 160];
    let n = put_cylinder(&mut line, 0, radius, 3);
    let made = drawn::draw(upright(radius), 3, 2, v, t);
    closed_or_open(&mut line, n, made, t);
}

fn shell(width: f64, v: &mut [f64], t: &mut [u32]) {
    let shape = Shape::CylindricalShell {
        start: at(0.0, 0.0, 0.0),
        stop: at(0.0, 0.0, 1.0),
        radius: 1.0,
        shell_width: width,
    };
    let mut line = [0u8; 160];
    let n = put_shell(&mut line, 0, width);
    let made = drawn::draw(shape, 3, 2, v, t);
    closed_or_open(&mut line, n, made, t);
}

// Writes whether the mesh in v and t is the cylinder of radius 2.5.
fn wide_cylinder(v: &[f64], t: &[u32]) {
    let mut vertices = [0.0; 24];
    let mut triangles = [0u32; 36];
    cylinder(2.5, &mut vertices, &mut triangles);
    if figures_same::floats(v, &vertices) & figures_same::numbers(t, &triangles) {
        io::write_all(1, b"  the same mesh as the last one\n");
    }
}

pub(crate) fn cylinders() {
    let mut v = [0.0; 24];
    let mut t = [0u32; 36];
    cylinder(1.0, &mut v, &mut t);
    shell(0.0, &mut v, &mut t);
    shell(3.0, &mut v, &mut t);
    wide_cylinder(&v, &t);
}

// The cylinder of radius 1, and which of the four points of the unit circle on the axes x and y are vertices of it. There is room for 44 segments: two
// rings of vertices and two centers.
fn quarters(segments: usize) {
    let mut line = [0u8; 160];
    let mut v = [0.0; 270];
    let mut t = [0u32; 528];
    let mut n = put_cylinder(&mut line, 0, 1.0, segments);
    let made = drawn::draw(upright(1.0), segments, 2, &mut v, &mut t);
    let m = mesh_made::record_made(made);
    n = put_quarters(&mut line, n, &v, m.vertices);
    written::write(&line, n);
}

// With 44 segments TAU * 11 / 44 and TAU * 22 / 44 are not PI / 2 and PI but floats beside them, and the vertices there lie beside their axes.
pub(crate) fn unit_cylinders() {
    quarters(4);
    quarters(8);
    quarters(12);
    quarters(32);
    quarters(44);
}
