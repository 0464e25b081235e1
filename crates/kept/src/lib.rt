// The zones of a job that are kept: those whose row or column of the weights that count holds some weight. The weights of a zone whose value
// is not returned count as 0.
#![tactic(auto)]

mod keeping;
mod marking;
mod returned;

ghost use Rattle.std.specs.Prelude.{◌≡◌};
ghost use Rattle.refusals.specs.Refusals.{number_of};
ghost use Rattle.kept.specs.Answers.{many_in, keep_refusal, keep_many, keep_left};
ghost use Rattle.kept.specs.Answers.{marks_refusal, marks_left};
ghost use Rattle.kept.specs.Answers.{reduce_refusal, reduce_left};

use judges::Places;
use marking::Weights;
use refusals::Refusal;

// Of values not returned: whether there are any, and how many.
pub use returned::{any_missing, count_missing};

// Puts the zones kept, rising, at the front of `zones`, which has 64 places, and answers how many they are. Where n is outside 2 to 64
// or a list has another length, `zones` is left as it was.
pub fn keep(n: usize, values: &[i32], weights: &[u8], zones: &mut [u8]) -> Result<usize, Refusal>
    ensures number { number_of result ≡ keep_refusal n values.now weights.now zones.old }
    ensures many { many_in result ≡ keep_many n values.now weights.now zones.old }
    ensures lent { zones.new ≡ keep_left n values.now weights.now zones.old }
{
    judges::judge_lent(
        n,
        &[
            (values.len(), Places::Zones),
            (weights.len(), Places::Pairs),
            (zones.len(), Places::Fixed(64)),
        ],
    )?;
    let lent = Weights { n, rows: weights };
    if any_missing(values) {
        return Ok(keeping::put_kept_counting(values, &lent, zones));
    }
    Ok(keeping::put_kept(&lent, zones))
}

// Puts a 1 for each zone that is kept and a 0 for each that is left out into `marks`, which has n places. Where n is outside 2 to 64 or a
// list has another length, `marks` is left as it was.
pub fn mark(n: usize, values: &[i32], weights: &[u8], marks: &mut [u8]) -> Result<(), Refusal>
    ensures number { number_of result ≡ marks_refusal n values.now weights.now marks.old }
    ensures lent { marks.new ≡ marks_left n values.now weights.now marks.old }
{
    judges::judge_lent(
        n,
        &[
            (values.len(), Places::Zones),
            (weights.len(), Places::Pairs),
            (marks.len(), Places::Zones),
        ],
    )?;
    let lent = Weights { n, rows: weights };
    if any_missing(values) {
        keeping::put_marks_counting(values, &lent, marks);
        return Ok(());
    }
    keeping::put_marks(&lent, marks);
    Ok(())
}

// Puts the weights that count into `counting`, which has n × n places: 0 in the row and in the column of a zone whose value is not
// returned. Where n is outside 2 to 64 or a list has another length, `counting` is left as it was.
pub fn reduce(n: usize, values: &[i32], weights: &[u8], counting: &mut [u8]) -> Result<(), Refusal>
    ensures number { number_of result ≡ reduce_refusal n values.now weights.now counting.old }
    ensures lent { counting.new ≡ reduce_left n values.now weights.now counting.old }
{
    judges::judge_lent(
        n,
        &[
            (values.len(), Places::Zones),
            (weights.len(), Places::Pairs),
            (counting.len(), Places::Pairs),
        ],
    )?;
    returned::reduce_rows(values, &Weights { n, rows: weights }, counting);
    Ok(())
}
