// A surface with all that its points are computed from.
ghost use Rattle.std.specs.Prelude.{◌≡◌};

use math::Vec3;
use surface_spec::Surface;
use trig_spec::SinCos;

// A surface, the corners of its outline, and the sines and cosines of its rows and of its columns.
#[derive(Clone, Copy)]
pub struct Sheet<'a> {
    pub s: Surface,
    pub corners: &'a [f64],
    pub rows: &'a [SinCos],
    pub cols: &'a [SinCos],
}

impl Sheet<'_> {
    ghost use Rattle.solid_grid.specs.Sheet.{SheetWithin, sheet_at};

    // The point (i, j).
    pub fn point(&self, i: usize, j: usize) -> Vec3
        requires { SheetWithin self.now i j }
        ensures { result ≡ sheet_at self.now i j }
    {
        surface::surface_point(self.s, self.corners, self.rows, self.cols, i, j)
    }
}
