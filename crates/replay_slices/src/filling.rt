// Filling of lent slices with the byte A5.
// One line each: what is written differs with the type.
ghost use Rattle.std.specs.Prelude.{◌≡◌};
ghost use Rattle.replay_slices.specs.Filling.{word_a5, float_a5, filled};

pub fn fill_words(out: &mut [u32])
    ensures { out.new ≡ filled word_a5 out.old }
{
    slice::clear_from(out, 0, 0xA5A5A5A5);
}

pub fn fill_floats(out: &mut [f64])
    ensures { out.new ≡ filled float_a5 out.old }
{
    slice::clear_from(out, 0, ieee::from_bits(0xA5A5A5A5A5A5A5A5));
}

// Fills the slices that a solid is drawn in.
pub fn fill_slices(vertices: &mut [f64], triangles: &mut [u32], work: &mut [u32])
    ensures { (vertices.new ≡ filled float_a5 vertices.old)
        × (triangles.new ≡ filled word_a5 triangles.old)
        × (work.new ≡ filled word_a5 work.old) }
{
    fill_floats(vertices);
    fill_words(triangles);
    fill_words(work);
}
