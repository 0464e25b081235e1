// The judges: each answers the first broken rule's refusal. A judge of 6 and 7 must find the zones kept, and puts them into room of its
// caller's, so that they are found once in a call: where nothing is refused it answers the job with them, and each judge says that it is
// the job which was lent. n and the lists go one by one until they are judged: a struct of them would have nothing to say before.
ghost use Rattle.std.specs.Prelude.{◌≡◌, [], ◌∷◌, ◌*◌, ◌≤◌, eqb, length, IfOk};
ghost use Rattle.whole.specs.Integer.{is_zero};
ghost use Rattle.whole.specs.Rules.{first_broken};
ghost use Rattle.whole.specs.Table.{at};
ghost use Rattle.refusals.specs.Refusals.{number_of};
ghost use Rattle.account.specs.Measures.{spread_of};
ghost use Rattle.account.specs.Refusals.{list_rules, job_rules, call_rules, job_refusal};
ghost use Rattle.account.specs.Classes.{class_rules, class_lengths};
ghost use Rattle.account.specs.Rank.{rank_refusal};
ghost use Rattle.account.specs.Steps.{gathered, Judged};

use crate::keeping::KeptLists;
use crate::lists::{LentLists, Summed, ZoneValues};
use crate::{deviations, differences};
use judges::Places;
use refusals::Refusal;

// 3, 4 and 5: the lists of a job as they were lent.
pub(super) fn judge_lists(n: usize, values: &[i32], weights: &[u8]) -> Result<(), Refusal>
    ensures { number_of result ≡ first_broken (list_rules n values.now weights.now) }
{
    judges::judge_values(values)?;
    judges::judge_weights(n, weights)
}

// 7 where these values do not vary.
pub(super) fn judge_spread(list: &ZoneValues) -> Result<(), Refusal>
    ensures { number_of result ≡ first_broken
        ((is_zero (spread_of (at list.now.values.now) list.now.n), 7) ∷ []) }
{
    let total = deviations::total(list);
    if differences::spread(&Summed { list: *list, total }) == 0 {
        return Err(Refusal::Spreadless);
    }
    Ok(())
}

// 6 where no zone is kept, 7 where the values of those kept do not vary. Where all are kept these are the values lent, and need no copy.
pub(super) fn judge_sums(kept: &KeptLists) -> Result<(), Refusal>
    ensures { number_of result ≡ first_broken ((eqb (length kept.now.zones.now) 0, 6)
        ∷ (
          is_zero (spread_of (at (gathered kept.now.job.values.now kept.now.zones.now))
              (length kept.now.zones.now)),
          7,
        )
        ∷ []) }
{
    let KeptLists { job, zones } = *kept;
    let LentLists { n, values, .. } = job;
    let many = zones.len();
    if many == 0 {
        return Err(Refusal::Weightless);
    }
    if many == n {
        return judge_spread(&ZoneValues { n, values });
    }
    let mut space: [i32; 64] = [0; 64];
    let kept_values = &mut space[..many];
    kept.gather(values, kept_values);
    judge_spread(&ZoneValues {
        n: many,
        values: kept_values,
    })
}

// 3 to 7, of a job whose sizes are good.
pub(super) fn judge_job<'a>(
    n: usize,
    values: &'a [i32],
    weights: &'a [u8],
    zones: &'a mut [u8; 64],
) -> Result<KeptLists<'a>, Refusal>
    requires le_n { 2 ≤ n }
    requires n_bound { n ≤ 64 }
    requires values_len { length values.now ≡ n }
    requires weights_len { length weights.now ≡ n * n }
    ensures number { number_of result ≡ first_broken (job_rules n values.now weights.now) }
    ensures job { IfOk result (λ kept. Judged n values.now weights.now kept.job.n kept.job.values.now kept.job.weights.now) }
{
    judge_lists(n, values, weights)?;
    let many = kept::keep(n, values, weights, zones)?;
    let kept = KeptLists {
        job: LentLists { n, values, weights },
        zones: &zones[..many],
    };
    judge_sums(&kept)?;
    Ok(kept)
}

// 1 to 7: the refusal of the account. What the n lent places hold is not judged, so their number is all that is asked for.
#[tactic(auto, unfolding(crate::specs::Refusals::call_rules, crate::specs::Refusals::job_rules))]
pub(super) fn judge_account<'a>(
    n: usize,
    values: &'a [i32],
    weights: &'a [u8],
    places: usize,
    zones: &'a mut [u8; 64],
) -> Result<KeptLists<'a>, Refusal>
    ensures number { number_of result
        ≡ first_broken (call_rules n values.now weights.now ((places, n) ∷ []) []) }
    ensures job { IfOk result (λ kept. Judged n values.now weights.now kept.job.n kept.job.values.now kept.job.weights.now) }
{
    judges::judge_lent(
        n,
        &[
            (values.len(), Places::Zones),
            (weights.len(), Places::Pairs),
            (places, Places::Zones),
        ],
    )?;
    judge_job(n, values, weights, zones)
}

// 1 to 7 of a job alone.
#[tactic(auto, unfolding(crate::specs::Refusals::call_rules, crate::specs::Refusals::job_refusal))]
pub fn judge(n: usize, values: &[i32], weights: &[u8]) -> Result<(), Refusal>
    ensures { number_of result ≡ job_refusal n values.now weights.now }
{
    let mut zones: [u8; 64] = [0; 64];
    judge_account(n, values, weights, n, &mut zones)?;
    Ok(())
}

// 1 to 7, then 9: the class account's refusal.
#[tactic(auto, unfolding(crate::specs::Classes::class_rules, crate::specs::Refusals::call_rules, crate::specs::Refusals::job_rules))]
pub(super) fn judge_classes<'a>(
    n: usize,
    values: &'a [i32],
    weights: &'a [u8],
    classes: &[u8],
    rows: usize,
    class_locals: usize,
    locals: usize,
    zones: &'a mut [u8; 64],
) -> Result<KeptLists<'a>, Refusal>
    ensures number { number_of result
        ≡ first_broken (class_rules n values.now weights.now classes.now
        (class_lengths n rows class_locals locals)) }
    ensures job { IfOk result (λ kept. Judged n values.now weights.now kept.job.n kept.job.values.now kept.job.weights.now) }
{
    judges::judge_lent(
        n,
        &[
            (values.len(), Places::Zones),
            (weights.len(), Places::Pairs),
            (classes.len(), Places::Pairs),
            (rows, Places::Fixed(27)),
            (class_locals, Places::ClassZones),
            (locals, Places::Zones),
        ],
    )?;
    let kept = judge_job(n, values, weights, zones)?;
    if judges::any_above(8, classes) {
        return Err(Refusal::Class);
    }
    Ok(kept)
}

// 1 to 7, then 13 and 24: the rank's refusal. How many rows there are, and how many desk numbers, is judged before the job, and what they
// name after it.
pub(super) fn judge_rank<'a>(
    n: usize,
    values: &'a [i32],
    weights: &'a [u8],
    shuffles: &[u8],
    desks: &[u8],
    zones: &'a mut [u8; 64],
) -> Result<KeptLists<'a>, Refusal>
    ensures number { number_of result ≡ rank_refusal n values.now weights.now shuffles.now desks.now }
    ensures job { IfOk result (λ kept. Judged n values.now weights.now kept.job.n kept.job.values.now kept.job.weights.now) }
{
    judges::judge_lent(
        n,
        &[
            (values.len(), Places::Zones),
            (weights.len(), Places::Pairs),
        ],
    )?;
    shuffles::judge_rows(n, shuffles)?;
    if desks.len() != shuffles.len() / n {
        return Err(Refusal::Length);
    }
    let kept = judge_job(n, values, weights, zones)?;
    shuffles::judge_shuffles(n, shuffles)?;
    if judges::any_above(3, desks) {
        return Err(Refusal::Desk);
    }
    Ok(kept)
}
