// The judge of a join table: it answers the refusal of the first broken rule, and stores nothing.
ghost use Rattle.std.specs.Prelude.{◌≡◌};
ghost use Rattle.refusals.specs.Refusals.{number_of};
ghost use Rattle.joins.specs.Joins.{join_refusal};

use judges::Places;
use refusals::Refusal;

// 1 to 5 and 8. What the lent places hold is not judged, so their number is all that is asked for.
#[tactic(auto, unfolding(crate::specs::Joins::join_rules, crate::specs::Joins::join_refusal))]
pub(super) fn judge_joins(
    n: usize,
    values: &[i32],
    categories: &[u8],
    weights: &[u8],
    table: usize,
) -> Result<(), Refusal>
    ensures { number_of result ≡ join_refusal n values.now categories.now weights.now table }
{
    judges::judge_lent(
        n,
        &[
            (values.len(), Places::Zones),
            (categories.len(), Places::Zones),
            (weights.len(), Places::Pairs),
            (table, Places::Fixed(64)),
        ],
    )?;
    judges::judge_values(values)?;
    judges::judge_weights(n, weights)?;
    judges::judge_categories(categories)
}
