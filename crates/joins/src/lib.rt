// The join table: how much weight goes from the zones of one category to those of another. The weights of a zone whose value is not returned
// count as 0.
#![tactic(auto)]

mod counting;
mod judging;

ghost use Rattle.std.specs.Prelude.{◌≡◌, length};
ghost use Rattle.refusals.specs.Refusals.{number_of};
ghost use Rattle.joins.specs.Joins.{join_refusal, joins_left};

use counting::Zones;
use refusals::Refusal;

// Works the join table: `table` is lent 64 places for T(0,0), T(0,1), .., T(7,7) and is left as it was where the call is refused.
pub fn join_table(
    n: usize,
    values: &[i32],
    categories: &[u8],
    weights: &[u8],
    table: &mut [i64],
) -> Result<(), Refusal>
    ensures number { number_of result ≡ join_refusal n values.now categories.now weights.now (length table.old) }
    ensures lent { table.new ≡ joins_left n values.now categories.now weights.now table.old }
{
    judging::judge_joins(n, values, categories, weights, table.len())?;
    table.fill(0);
    let zones = Zones {
        n,
        categories,
        weights,
    };
    if kept::any_missing(values) {
        zones.count_returned(values, table);
        return Ok(());
    }
    zones.count_joins(table);
    Ok(())
}
