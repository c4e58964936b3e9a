// sphere of src/tessellate.rs and the spherical shell, streamed into the welder.
ghost use Rattle.std.specs.Prelude.{◌≤◌, ◌<◌};
ghost use Rattle.weld.specs.Rep.{Ready};
ghost use Rattle.weld.specs.Welding.{held_by, Welds};
ghost use Rattle.solid_spec.specs.Grid.{grid};
ghost use Rattle.solid_spec.specs.Sphere as Sphere;

use math::Vec3;
use shape::TessellationOptions;
use solid_grid::Sheet;
use surface::Turns;
use surface_spec::Surface;
use trig_spec::SinCos;
use weld::Welding;

// The grid of a sphere, with two tables of POINTS entries and places for guesses at the numbers of as many points.
fn weld_sized<const POINTS: usize>(
    w: &mut Welding<'_>,
    c: Vec3,
    r: f64,
    nt: usize,
    np: usize,
    flip: bool,
)
    requires ready { Ready (held_by w.old) }
    requires nt_bound { (nt ≤ 1024) × (3 ≤ np) × (np ≤ 1024) × (nt < POINTS) × (np < POINTS) × (POINTS ≤ 1025) }
    ensures { Welds (grid nt np flip (Sphere.sphere_point c r nt np)) w.old w.new }
{
    let mut rows = [SinCos { sin: 0.0, cos: 0.0 }; POINTS];
    let mut cols = [SinCos { sin: 0.0, cos: 0.0 }; POINTS];
    let mut numbers = [0usize; POINTS];
    surface::fill_entries(Turns::Latitudes { nt }, nt, &mut rows);
    surface::fill_entries(Turns::Longitudes { np }, np, &mut cols);
    let x = Sheet {
        s: Surface::Sphere { c, r, nt, np },
        corners: &[],
        rows: &rows,
        cols: &cols,
    };
    solid_grid::weld_grid(w, &x, &mut numbers, nt, np, flip);
}

// The grid of a sphere. Few rings and segments have small arrays, so that clearing them takes little time.
fn weld_skin(w: &mut Welding<'_>, c: Vec3, r: f64, nt: usize, np: usize, flip: bool)
    requires ready { Ready (held_by w.old) }
    requires le_np { (3 ≤ np) × (nt ≤ 1024) × (np ≤ 1024) }
    ensures { Welds (grid nt np flip (Sphere.sphere_point c r nt np)) w.old w.new }
{
    if nt.max(np) <= 64 {
        weld_sized::<65>(w, c, r, nt, np, flip);
    } else {
        weld_sized::<1025>(w, c, r, nt, np, flip);
    }
}

pub fn weld_sphere(w: &mut Welding<'_>, c: Vec3, r: f64, options: TessellationOptions, flip: bool)
    requires ready { Ready (held_by w.old) }
    requires segments_bound { (options.segments ≤ 1024) × (options.sphere_rings ≤ 1024) }
    ensures { Welds (Sphere.sphere c r options.segments options.sphere_rings flip) w.old w.new }
{
    if r <= 0.0 {
        return;
    }
    let nt = options.sphere_rings.max(2);
    let np = options.segments.max(3);
    weld_skin(w, c, r, nt, np, flip);
}

// A sphere's two skins. The inner one is turned round.
pub fn weld_spherical_shell(
    w: &mut Welding<'_>,
    center: Vec3,
    radius: f64,
    width: f64,
    cylindrical: bool,
    options: TessellationOptions,
)
    requires ready { Ready (held_by w.old) }
    requires segments_bound { (options.segments ≤ 1024) × (options.sphere_rings ≤ 1024) }
    ensures { Welds
        (Sphere.spherical_shell_soup cylindrical center radius width options.segments options.sphere_rings) w.old w.new }
{
    let c = surface_coords::to_cartesian(center, cylindrical);
    let half = width / 2.0;
    weld_sphere(w, c, radius + half, options, false);
    if half > 0.0 {
        weld_sphere(w, c, radius - half, options, true);
    }
}
