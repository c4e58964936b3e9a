// docs/SCOPE.md's checks on what was drawn, before anything is computed: refusals 3, 4, 1 and 2, in this order.
#![tactic(auto)]

mod limits;

ghost use Rattle.std.specs.Prelude.{◌≡◌};
ghost use Rattle.refusal.specs.Answer.{answer_of};
ghost use Rattle.shape.specs.Drawing.{drawing_refusal};

use refusal::Refusal;
use shape::Drawing;

// Refusals 3, 4, 1 and 2, in this order, on the drawing and the operations that count.
pub fn check_drawing(d: &Drawing<'_>) -> Result<(), Refusal>
    ensures { answer_of result
        ≡ drawing_refusal d.now.shape d.now.list.now d.now.own d.now.default d.now.options
        d.now.operations.ops d.now.operations.count d.now.operations.degrees }
{
    let many = limits::too_many_segments(d.options);
    let bad = limits::bad_lists(d.shape, d.list.len(), d.operations.count);
    if many {
        return Err(Refusal::TooManySegments);
    }
    if bad {
        return Err(Refusal::BadList);
    }
    if shape_finite::numbers_bad(d.shape, d.list, &d.operations) {
        return Err(Refusal::NotFinite);
    }
    let cylindrical = shape::is_cylindrical(shape::shape_cs(d.shape, d.own, d.default));
    if shape_angles::angles_bad(cylindrical, d.shape, d.list, &d.operations) {
        return Err(Refusal::AngleTooLarge);
    }
    Ok(())
}
