// The rounding of a quotient, half to even: which of two whole numbers is taken.
#![tactic(auto)]

ghost use Rattle.std.specs.Prelude.{◌≡◌};
ghost use Rattle.halves.specs.Halves.{rounds_up};

// Whether a quotient goes up to the next number: its whole part stands before rest / divisor. Half goes to the even one.
// Twice the rest need not fit, so half of the divisor is taken: an odd whole part goes up from half on, an even one above half alone.
#[tactic(auto, using(std::proofs::lemmas::Bool::Decides::nat_tests), unfolding(crate::specs::Halves::rounds_up))]
pub fn rounds_up(whole: u64, rest: u64, divisor: u64) -> bool
    ensures { result ≡ rounds_up whole rest divisor }
{
    let half = divisor / 2;
    if whole % 2 == 1 {
        half + divisor % 2 <= rest
    } else {
        half < rest
    }
}
