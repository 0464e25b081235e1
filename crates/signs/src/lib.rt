// The size and the sign of a signed number, promised in the words that the figures are told in.
// The library's methods alone are called, and both functions stay, as public ones do by a rule of the project.
#![tactic(auto)]

ghost use Rattle.std.specs.Prelude.{◌≡◌, nat_abs};
ghost use Rattle.whole.specs.Integer.{below_zero};

pub fn is_below_zero(z: i64) -> bool
    ensures { result ≡ below_zero z }
{
    z.is_negative()
}

pub fn size(z: i64) -> u64
    ensures { result ≡ nat_abs z }
{
    z.unsigned_abs()
}
