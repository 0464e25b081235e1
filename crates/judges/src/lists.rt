// The rules of lent lists that more than one call judges by.
ghost use Rattle.std.specs.Prelude.{◌≡◌, [], ◌∷◌};
ghost use Rattle.whole.specs.Rules.{first_broken};
ghost use Rattle.whole.specs.Search.{any_above, any_on_diagonal};
ghost use Rattle.refusals.specs.Refusals.{number_of};

use crate::{any_above, any_on_diagonal};
use refusals::Refusal;

// 4 and 5: a weight above 9, then one on the diagonal.
pub fn judge_weights(n: usize, weights: &[u8]) -> Result<(), Refusal>
    ensures { number_of result
        ≡ first_broken ((any_above 9 weights.now, 4) ∷ (any_on_diagonal n weights.now, 5) ∷ []) }
{
    if any_above(9, weights) {
        return Err(Refusal::Weight);
    }
    if any_on_diagonal(n, weights) {
        return Err(Refusal::Diagonal);
    }
    Ok(())
}

// 8: a category above 7.
pub fn judge_categories(categories: &[u8]) -> Result<(), Refusal>
    ensures { number_of result ≡ first_broken ((any_above 7 categories.now, 8) ∷ []) }
{
    if any_above(7, categories) {
        return Err(Refusal::Category);
    }
    Ok(())
}
