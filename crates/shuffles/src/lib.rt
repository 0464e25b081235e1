// The judge of a list of shuffles: a row of n zone numbers for each shuffle, 0 to 499 whole rows, and in each row every zone number.
#![tactic(auto)]

mod lacking;

ghost use Rattle.std.specs.Prelude.{◌≡◌, length};
ghost use Rattle.refusals.specs.Refusals.{number_of};
ghost use Rattle.shuffles.specs.Shuffles.{row_refusal, shuffle_refusal};

use judges::Places;
use refusals::Refusal;

// 1 and 2: n, and whether the list has nothing beside its 0 to 499 whole rows.
pub fn judge_rows(n: usize, shuffles: &[u8]) -> Result<(), Refusal>
    ensures { number_of result ≡ row_refusal n (length shuffles.now) }
{
    // an n of 0 is refused, however many rows there are
    let rows = shuffles.len().checked_div(n).unwrap_or(0).min(499);
    judges::judge_lent(n, &[(shuffles.len(), Places::Fixed(rows * n))])
}

// 1, 2 and 13.
pub fn judge_shuffles(n: usize, shuffles: &[u8]) -> Result<(), Refusal>
    ensures { number_of result ≡ shuffle_refusal n shuffles.now }
{
    judge_rows(n, shuffles)?;
    if lacking::any_lacking(n, shuffles) {
        return Err(Refusal::Shuffle);
    }
    Ok(())
}
