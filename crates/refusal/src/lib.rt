// The refusals and their numbers (docs/SCOPE.md, "Refusals").
#![tactic(auto)]

ghost use Rattle.std.specs.Prelude.{◌≡◌, Some};
ghost use Rattle.refusal.specs.Answer.{answer_of};
ghost use Rattle.refusal.specs.Number.{number_of};

// Why a call was refused.
#[derive(Clone, Copy, Debug, PartialEq, Eq)]
pub enum Refusal {
    // A float of a drawing, of an operation or of a mesh handed in is an infinity or a NaN.
    NotFinite,
    // The absolute value of an angle is above 1,000.
    AngleTooLarge,
    // More than 1,024 segments or rings.
    TooManySegments,
    // A list or a soup ends within an item, or a list has too many items.
    BadList,
    // A coordinate is not finite: of a point of the solid or the soup, or of a vertex after the operations.
    PointNotFinite,
    // The work slice has fewer than two numbers for each whole vertex place.
    ShortWork,
    // The slices have too few whole places for the mesh, or one of its counts would be above 4,294,967,295.
    NoRoom,
    // Of a mesh handed in, a count or a vertex number is too large.
    BadMesh,
    // A file is too long, a field of it runs past the end, or a field's length is wrong for its tag.
    BrokenField,
    // A field of a file has an unknown tag, or an unknown system, mark or kind.
    UnknownField,
    // A file has no solid.
    NoSolid,
}

// docs/SCOPE.md's number of a refusal.
impl From<Refusal> for u32 {
    ghost from_gives = { λ refusal n. n ≡ number_of (Some refusal) };

    fn from(refusal: Refusal) -> u32 {
        match refusal {
            Refusal::NotFinite => 1,
            Refusal::AngleTooLarge => 2,
            Refusal::TooManySegments => 3,
            Refusal::BadList => 4,
            Refusal::PointNotFinite => 5,
            Refusal::ShortWork => 6,
            Refusal::NoRoom => 7,
            Refusal::BadMesh => 8,
            Refusal::BrokenField => 9,
            Refusal::UnknownField => 10,
            Refusal::NoSolid => 11,
        }
    }
}

// docs/SCOPE.md's number of an answer, 0 where the call was accepted.
pub fn number<T: Copy>(answer: Result<T, Refusal>) -> u32
    ensures { result ≡ number_of (answer_of answer) }
{
    match answer {
        Ok(_) => 0,
        Err(refusal) => u32::from(refusal),
    }
}
