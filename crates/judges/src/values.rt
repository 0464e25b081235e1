// The rule of the values: one marks a value not returned, which is no number, so that nothing is worked of it.
ghost use Rattle.std.specs.Prelude.{◌≡◌, not, [], ◌∷◌, ◌&&◌};
ghost use Rattle.whole.specs.Integer.{beyond, equal};
ghost use Rattle.whole.specs.Rules.{first_broken};
ghost use Rattle.refusals.specs.Refusals.{number_of};
ghost use Rattle.judges.specs.Values.{not_returned, any_value_beyond};

use crate::is_beyond;
use refusals::Refusal;

// The value that marks a value not returned: a marking value and no Option, since document 02 has it stand among the values that C lends.
const NOT_RETURNED: i32 = i32::MIN;

// Whether a value is not returned.
pub fn is_missing(value: i32) -> bool
    ensures { result ≡ equal value not_returned }
{
    value == NOT_RETURNED
}

// Whether a value is returned and beyond 100,000 in size.
fn value_beyond(value: i32) -> bool
    ensures { result ≡ (not (equal value not_returned) && beyond 100000 value) }
{
    !is_missing(value) && is_beyond(100000, value)
}

// Whether some value is.
fn any_value_beyond(values: &[i32]) -> bool
    ensures { result ≡ any_value_beyond values.now }
{
    values.iter().any(|value| value_beyond(*value))
}

// 3: a value that is returned, beyond 100,000 in size.
pub fn judge_values(values: &[i32]) -> Result<(), Refusal>
    ensures { number_of result ≡ first_broken ((any_value_beyond values.now, 3) ∷ []) }
{
    if any_value_beyond(values) {
        return Err(Refusal::Value);
    }
    Ok(())
}
