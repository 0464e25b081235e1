// What more than one judge asks: whether n and the lengths of lent lists are as they must be, whether a number of a list is beyond or
// above a limit, and whether a weight stands on the diagonal.
#![tactic(auto)]

mod lists;
mod sizes;
mod values;

ghost use Rattle.std.specs.Prelude.{◌≡◌};
ghost use Rattle.whole.specs.Integer.{beyond};
ghost use Rattle.whole.specs.Search.{any_beyond, any_above, any_on_diagonal};

pub use lists::{judge_categories, judge_weights};
pub use sizes::{Places, judge_lent, judge_zones};
pub use values::{is_missing, judge_values};

// Whether a number is beyond the limit in size.
fn is_beyond(limit: u32, number: i32) -> bool
    ensures { result ≡ beyond limit number }
{
    number.unsigned_abs() > limit
}

// Whether some number is beyond the limit in size.
pub fn any_beyond(limit: u32, numbers: &[i32]) -> bool
    ensures { result ≡ any_beyond limit numbers.now }
{
    numbers.iter().any(|number| is_beyond(limit, *number))
}

// Whether some number is above the limit. Each is looked at, also behind the first, as vector instructions look at several at a time.
pub fn any_above(limit: u8, numbers: &[u8]) -> bool
    ensures { result ≡ any_above limit numbers.now }
{
    numbers
        .iter()
        .fold(false, |found, number| found | (*number > limit))
}

// Whether some weight stands on the diagonal, where each zone has a row of n weights. A place behind the list's end has none.
pub fn any_on_diagonal(n: usize, weights: &[u8]) -> bool
    ensures { result ≡ any_on_diagonal n weights.now }
{
    // from one place of the diagonal to the next is a row and a place more
    weights
        .chunks(n.saturating_add(1))
        .take(n)
        .any(|from| from[0] > 0)
}
