// The types of a surface, for code that takes one by cases. No functions: the specs have the points of each surface, and the proofs that the grids of
// the solids are grids over surfaces.
// Cases and no closures, as docs/SCOPE.md has it (M9): a case also tells which tables its points read.
#![tactic(auto)]

use math::Vec3;

// An axis of a parameter box from lo to hi, cut into n parts; a periodic one ends where it starts.
#[derive(Clone, Copy)]
pub struct Line {
    pub lo: f64,
    pub hi: f64,
    pub n: usize,
    pub periodic: bool,
}

// The map of a parameter box: as it is, from cylindrical coordinates, or around the axis from a in the direction d.
#[derive(Clone, Copy)]
pub enum Chart {
    Cartesian,
    Cylindrical,
    Around {
        a: Vec3,
        d: Vec3,
        e1: Vec3,
        e2: Vec3,
    },
}

// A surface of which each point has two numbers: a face of a parameter box on axis k, a sphere, the sides of an extruded outline and of a rotated one.
#[derive(Clone, Copy)]
pub enum Surface {
    Face {
        chart: Chart,
        k: usize,
        val: f64,
        u: Line,
        v: Line,
    },
    Sphere {
        c: Vec3,
        r: f64,
        nt: usize,
        np: usize,
    },
    Extruded {
        n: usize,
        len: usize,
        lo: f64,
        hi: f64,
    },
    Rotated {
        a: usize,
        q: usize,
        len: usize,
        full: bool,
        start: f64,
        span: f64,
        n: usize,
    },
}
