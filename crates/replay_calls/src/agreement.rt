// The refusal that the measures of a mesh answer.
ghost use Rattle.std.specs.Prelude.{◌≡◌};
ghost use Rattle.replay_calls.specs.Agreed.{agreed_of};

// The refusal that all four measures agree on, else 255.
// 255 is the number of a result file where the four differ (tests/README.md), and of agreed_of in the clause.
pub fn agreed(a: u32, b: u32, c: u32, d: u32) -> u32
    ensures { result ≡ agreed_of a b c d }
{
    if (a == b) & (a == c) & (a == d) {
        a
    } else {
        255
    }
}
