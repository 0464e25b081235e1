// How many values are not returned, and the weights that count: 0 in the row and in the column of a zone that has none.
ghost use Rattle.std.specs.Prelude.{◌≡◌, cond, ◌||◌, ◌*◌, length, get_or};
ghost use Rattle.whole.specs.Integer.{equal};
ghost use Rattle.whole.specs.Search.{some};
ghost use Rattle.whole.specs.Table.{table};
ghost use Rattle.judges.specs.Values.{not_returned, missing};
ghost use Rattle.kept.specs.Returned.{missing_count, reduced};

use crate::marking::Weights;
use judges::is_missing;

// Whether some value is not returned. Each is looked at, also behind the first, as vector instructions look at several at a time.
pub fn any_missing(values: &[i32]) -> bool
    ensures { result ≡ some (missing values.now) (length values.now) }
{
    values
        .iter()
        .fold(false, |found, value| found | is_missing(*value))
}

// How many values are not returned.
pub fn count_missing(values: &[i32]) -> usize
    ensures { result ≡ missing_count values.now }
{
    values.iter().filter(|value| is_missing(**value)).count()
}

// The weight that counts between two zones with these values.
fn counting_weight(from: i32, to: i32, weight: u8) -> u8
    ensures { result ≡ cond (equal from not_returned || equal to not_returned) 0 weight }
{
    if is_missing(from) || is_missing(to) {
        0
    } else {
        weight
    }
}

// The weights that count in the row of a zone with the value `own`.
fn reduce_row(own: i32, values: &[i32], weights: &[u8], row: &mut [u8])
    requires weights_len { length weights.now ≡ length values.now }
    requires row_len { length row.old ≡ length values.now }
    ensures { row.new
        ≡ table (λ j. cond (equal own not_returned || missing values.now j) 0 (get_or weights.now j 0))
        (length values.now) }
{
    // by its place: a proof knows nothing of the weights that a zip would hand out to be written
    for (j, counting) in row.iter_mut().enumerate() {
        *counting = counting_weight(own, values[j], weights[j]);
    }
}

// The weights that count.
pub(super) fn reduce_rows(values: &[i32], weights: &Weights, counting: &mut [u8])
    requires values_len { length values.now ≡ weights.now.n }
    requires counting_len { length counting.old ≡ weights.now.n * weights.now.n }
    ensures { counting.new ≡ reduced weights.now.n values.now weights.now.rows.now }
{
    for (i, own) in values.iter().enumerate() {
        let first = i * weights.n;
        let end = first + weights.n;
        reduce_row(*own, values, weights.row(i), &mut counting[first..end]);
    }
}

// The weights that count, in room that is lent.
pub(super) fn reduce_into<'a>(
    values: &[i32],
    weights: &Weights,
    room: &'a mut [u8; 4096],
) -> Weights<'a>
    requires { length values.now ≡ weights.now.n }
    ensures n { result.n ≡ weights.now.n }
    ensures rows { result.rows.now ≡ reduced weights.now.n values.now weights.now.rows.now }
{
    let n = weights.n;
    let counting = &mut room[..n * n];
    reduce_rows(values, weights, counting);
    Weights { n, rows: counting }
}
