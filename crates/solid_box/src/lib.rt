// Parameter boxes, streamed into the welder: Soup::param_box and box_shape of src/tessellate.rs.
#![tactic(auto)]

mod box_shape;
mod faces;
mod flat;
mod param_box;

pub use box_shape::weld_box_shape;
use math::Vec3;
pub use param_box::weld_param_box;
use surface_spec::Chart;

// A box in its chart's coordinates: one part on the first and the last axis, n parts on the middle one, an angle that is periodic where
// `turns` says so.
#[derive(Clone, Copy)]
pub struct ParamBox {
    pub lo: Vec3,
    pub hi: Vec3,
    pub n: usize,
    pub turns: bool,
    pub chart: Chart,
}
