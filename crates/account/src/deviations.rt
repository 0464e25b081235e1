// S, the deviations from the mean with their sign, and the local numerators that are products of them.
ghost use Rattle.std.specs.Prelude.{◌≡◌, ◌≤◌, ◌<◌, length};
ghost use Rattle.whole.specs.Sum.{sum};
ghost use Rattle.whole.specs.Table.{table, at, pair_at};
ghost use Rattle.account.specs.Measures.{total_of, deviation_of, row_of, local_of};
ghost use Rattle.account.specs.Steps.{most_local, Sized};

use crate::lists::{self, Summed, Weighed, ZoneValues};

// S.
pub(super) fn total(list: &ZoneValues) -> i64
    ensures { result ≡ total_of (at list.now.values.now) list.now.n }
{
    // by a loop, as all sums here: for a signed sum at the end of a chain the check finds no bound
    let mut acc: i64 = 0;
    for x in list.values {
        acc += i64::from(*x);
    }
    acc
}

// The deviations d(i), with their sign, from S.
pub(super) fn deviations(summed: &Summed, d: &mut [i64])
    requires { length d.old ≡ summed.now.list.n }
    ensures { d.new ≡ table (deviation_of (at summed.now.list.values.now) summed.now.list.n) summed.now.list.n }
{
    let ZoneValues { n, values } = summed.list;
    let total = summed.total;
    // no From leads here from a usize, and TryFrom and an unwrap are no plainer
    let count = n as i64;
    // by place: of a zip over iter_mut no proof knows what it wrote
    for (i, deviation) in d.iter_mut().enumerate() {
        *deviation = count * i64::from(values[i]) - total;
    }
}

// The weighted neighbours of zone i: the sum over j of w(i,j) d(j). That i is below n is a clause here, and where a walk over the zones
// calls: a type for it is no plainer, as each function would still have to say that its n is this one.
pub(super) fn neighbour_sum(weighed: &Weighed, i: usize) -> i64
    requires { i < weighed.now.n }
    ensures { result ≡ row_of (pair_at weighed.now.weights.now weighed.now.n) (λ i j. at weighed.now.d.now j) i weighed.now.n }
{
    let d = weighed.d;
    let row = lists::row(weighed.weights, weighed.n, i);
    let mut acc: i64 = 0;
    // by j: a zip is no plainer, as it ends at the shorter and both must be known to have n; measured, few zones took a tenth longer
    for (j, weight) in row.iter().enumerate() {
        acc += i64::from(*weight) * d[j];
    }
    acc
}

// The local numerators L(i).
pub(super) fn local_numerators(weighed: &Weighed, locals: &mut [i64])
    requires { length locals.old ≡ weighed.now.n }
    ensures { locals.new
        ≡ table (local_of (pair_at weighed.now.weights.now weighed.now.n) (at weighed.now.d.now) weighed.now.n) weighed.now.n }
{
    let d = weighed.d;
    // by place: of a zip over iter_mut no proof knows what it wrote
    for (i, local) in locals.iter_mut().enumerate() {
        let neighbours = neighbour_sum(weighed, i);
        *local = d[i] * neighbours;
    }
}

// The sum of local numerators. S has a loop of its own: its values have 32 bits each, and another bound.
pub(super) fn sum_of(locals: &[i64]) -> i64
    requires few { length locals.now ≤ 64 }
    requires sized { Sized most_local locals.now (length locals.now) }
    ensures { result ≡ sum (at locals.now) (length locals.now) }
{
    let mut acc: i64 = 0;
    for local in locals {
        acc += *local;
    }
    acc
}
