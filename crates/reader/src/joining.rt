// The joins of an image, three bytes each: from, to, weight. Their judge, and the table of weights that they make.
ghost use Rattle.std.specs.Prelude.{◌≡◌, ◌*◌, length};
ghost use Rattle.whole.specs.Rules.{first_broken, in_turn};
ghost use Rattle.whole.specs.Table.{table};
ghost use Rattle.image.specs.Joins.{weights_of, join_rules};
ghost use Rattle.refusals.specs.Refusals.{number_of};
ghost use Rattle.reader.specs.Steps.{Joinable, join_at, rules_by_place};

use crate::zones::Zones;
use refusals::Refusal;

// 16, 5, 16 and 4 of one join; `next` is the first place after those of the joins before it.
fn judge_join(zones: Zones, next: usize, from: usize, to: usize, weight: u8) -> Result<(), Refusal>
    ensures { number_of result ≡ first_broken (rules_by_place zones.n next from to weight) }
{
    let n = zones.n;
    if from >= n || to >= n {
        return Err(Refusal::Joins);
    }
    if from == to {
        return Err(Refusal::Diagonal);
    }
    if from * n + to < next {
        return Err(Refusal::Joins);
    }
    if !(1..=9).contains(&weight) {
        return Err(Refusal::Weight);
    }
    Ok(())
}

// 16, 5, 16 and 4 of each join in turn.
pub(super) fn judge_joins(zones: Zones, joins: &[[u8; 3]]) -> Result<(), Refusal>
    ensures { number_of result ≡ first_broken (in_turn (join_rules zones.n (join_at joins.now)) (length joins.now)) }
{
    let mut next = 0;
    for &[from, to, weight] in joins {
        let (from, to) = (usize::from(from), usize::from(to));
        judge_join(zones, next, from, to, weight)?;
        next = from * zones.n + to + 1;
    }
    Ok(())
}

// The table of joins that break no rule: a weight with no join is 0.
pub(super) fn put_joins(n: usize, joins: &[[u8; 3]], weights: &mut [u8])
    requires joinable { Joinable n joins.now }
    requires weights_len { length weights.old ≡ n * n }
    ensures { weights.new ≡ weights_of n (table (join_at joins.now) (length joins.now)) }
{
    weights.fill(0);
    for &[from, to, weight] in joins {
        weights[usize::from(from) * n + usize::from(to)] = weight;
    }
}
