// Squared differences of values: M, from S and the sum of the squares, and G, over the ordered pairs with their weights.
ghost use Rattle.std.specs.Prelude.{◌≡◌, ◌≤◌, ◌<◌, nat_abs, ◌-ℤ◌};
ghost use Rattle.whole.specs.Integer.{square};
ghost use Rattle.whole.specs.Sum.{sum};
ghost use Rattle.whole.specs.Table.{at, pair_at};
ghost use Rattle.account.specs.Measures.{spread_of, row_of, squares_of};

use crate::lists::{self, JobLists, Summed, ZoneValues};

// The squared difference of two values.
pub(super) fn squared_difference(a: i32, b: i32) -> i64
    requires a_bound { nat_abs a ≤ 100000 }
    requires b_bound { nat_abs b ≤ 100000 }
    ensures { result ≡ square (a -ℤ b) }
{
    let difference = i64::from(a) - i64::from(b);
    difference * difference
}

// The sum of the squares of the values.
pub(super) fn square_sum(list: &ZoneValues) -> i64
    ensures { result ≡ sum (λ i. square (at list.now.values.now i)) list.now.n }
{
    // by a loop, as all sums here: for a signed sum at the end of a chain the check finds no bound
    let mut acc: i64 = 0;
    for value in list.values {
        let x = i64::from(*value);
        acc += x * x;
    }
    acc
}

// M from S, without a walk over the pairs: n times the sum of the squares, less the square of the sum.
pub(super) fn spread(summed: &Summed) -> i64
    ensures { result ≡ spread_of (at summed.now.list.values.now) summed.now.list.n }
{
    let Summed { list, total } = *summed;
    let squares = square_sum(&list);
    // no From leads here from a usize, and TryFrom and an unwrap are no plainer
    let count = list.n as i64;
    count * squares - total * total
}

// The weighted squared differences of zone i.
pub(super) fn row_squares(job: &JobLists, i: usize) -> i64
    requires { i < job.now.n }
    ensures { result ≡ row_of (pair_at job.now.weights.now job.now.n)
        (λ i j. square (at job.now.values.now i -ℤ at job.now.values.now j)) i job.now.n }
{
    let values = job.values;
    let own = values[i];
    let row = lists::row(job.weights, job.n, i);
    let mut acc: i64 = 0;
    // by j: a zip is no plainer, as it ends at the shorter and both must be known to have n; measured, it took half as long again
    for (j, weight) in row.iter().enumerate() {
        acc += i64::from(*weight) * squared_difference(own, values[j]);
    }
    acc
}

// G.
pub(super) fn squares(job: &JobLists) -> i64
    ensures { result ≡ squares_of (pair_at job.now.weights.now job.now.n) (at job.now.values.now) job.now.n }
{
    let mut acc: i64 = 0;
    for i in 0..job.n {
        acc += row_squares(job, i);
    }
    acc
}
