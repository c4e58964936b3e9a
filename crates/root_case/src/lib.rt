// The six cases of the square root, told by the fields of a float's pattern.
#![tactic(auto)]

ghost use Rattle.std.specs.Prelude.{◌≡◌};
ghost use Rattle.root_case.specs.Case.{root_case};

// The cases. The exponent is meant without its bias.
#[derive(Clone, Copy, Debug, PartialEq, Eq)]
pub enum RootCase {
    Zero,
    NotFinite,
    Negative,
    Subnormal,
    EvenExponent,
    OddExponent,
}

// The case of x: the first that is true of it.
pub fn root_case(x: f64) -> RootCase
    ensures { result ≡ root_case x }
{
    let b = ieee::bits_of(x);
    let magnitude = b % 0x8000_0000_0000_0000;
    if magnitude == 0 {
        return RootCase::Zero;
    }
    let field = magnitude / 0x10_0000_0000_0000;
    if field == 2047 {
        return RootCase::NotFinite;
    }
    if magnitude < b {
        return RootCase::Negative;
    }
    if field == 0 {
        return RootCase::Subnormal;
    }
    let exponent = field as i64 - 1023;
    if exponent % 2 == 0 {
        return RootCase::EvenExponent;
    }
    RootCase::OddExponent
}
