// Lists that go together, with the facts that were found of them, by the judges or where they were worked. Where n stands beside its
// lists, every clause says by it what is worked: by the length of one of them each would be longer.
ghost use Rattle.std.specs.Prelude.{◌≡◌, false, ◌*◌, ◌+◌, ◌≤◌, ◌<◌, length, get_or, take, drop};
ghost use Rattle.whole.specs.Order.{lacks};
ghost use Rattle.whole.specs.Table.{table, at};
ghost use Rattle.shuffles.specs.Steps.{Shuffles};
ghost use Rattle.account.specs.Measures.{total_of, deviation_of};
ghost use Rattle.account.specs.Steps.{Sized, Valued, Weighted, Job, Lent, ClassJob, Desked};

use crate::deviations;

// The values of n zones.
#[derive(Clone, Copy)]
pub(super) struct ZoneValues<'a> {
    pub(super) n: usize,
    pub(super) values: &'a [i32],
    ghost valued: { Valued values.now n },
}

// The same with S, which is worked once.
#[derive(Clone, Copy)]
pub(super) struct Summed<'a> {
    pub(super) list: ZoneValues<'a>,
    pub(super) total: i64,
    ghost summed: { total ≡ total_of (at list.values.now) list.n },
}

// The lists of a job as they were lent: a value may be one that is not returned.
#[derive(Clone, Copy)]
pub(super) struct LentLists<'a> {
    pub(super) n: usize,
    pub(super) values: &'a [i32],
    pub(super) weights: &'a [u8],
    ghost good: { Lent values.now weights.now n },
}

// A job of n zones.
#[derive(Clone, Copy)]
pub(super) struct JobLists<'a> {
    pub(super) n: usize,
    pub(super) values: &'a [i32],
    pub(super) weights: &'a [u8],
    ghost good: { Job values.now weights.now n },
}

impl JobLists<'_> {
    // Its values with their S.
    pub(super) fn summed(&self) -> Summed<'_>
        ensures n_value { result.list.n ≡ self.now.n }
        ensures values_value { result.list.values.now ≡ self.now.values.now }
    {
        let list = ZoneValues {
            n: self.n,
            values: self.values,
        };
        let total = deviations::total(&list);
        Summed { list, total }
    }
}

// A job with the classes of its pairs.
#[derive(Clone, Copy)]
pub(super) struct ClassLists<'a> {
    pub(super) job: JobLists<'a>,
    pub(super) classes: &'a [u8],
    ghost good: { ClassJob job.values.now job.weights.now classes.now job.n },
}

// The same with the deviations, which are worked once.
#[derive(Clone, Copy)]
pub(super) struct ClassDeviations<'a> {
    pub(super) lists: ClassLists<'a>,
    pub(super) d: &'a [i64],
    ghost worked: { d.now ≡ table (deviation_of (at lists.job.values.now) lists.job.n) lists.job.n },
}

// The deviations of n zones, and the weights between them.
#[derive(Clone, Copy)]
pub(super) struct Weighed<'a> {
    pub(super) n: usize,
    pub(super) weights: &'a [u8],
    pub(super) d: &'a [i64],
    ghost weighted: { Weighted weights.now n },
    ghost sized: { Sized 12800000 d.now n },
}

// One shuffle: each number of the zones stands in it.
#[derive(Clone, Copy)]
pub(super) struct ShuffleRow<'a> {
    pub(super) zones: &'a [u8],
    ghost few: { length zones.now ≤ 64 },
    ghost full: { lacks (λ i. get_or zones.now i 0) (length zones.now) ≡ false },
}

// A list of shuffles, so many rows of n, with the desk number of each.
#[derive(Clone, Copy)]
pub(super) struct ShuffleRows<'a> {
    pub(super) n: usize,
    pub(super) shuffles: &'a [u8],
    pub(super) desks: &'a [u8],
    pub(super) rows: usize,
    ghost good: { Shuffles shuffles.now n rows },
    ghost desked: { Desked desks.now rows },
}

impl ShuffleRows<'_> {
    // Shuffle r.
    pub(super) fn shuffle(&self, r: usize) -> ShuffleRow<'_>
        requires { r < self.now.rows }
        ensures { result.zones.now ≡ take self.now.n (drop (r * self.now.n) self.now.shuffles.now) }
    {
        ShuffleRow {
            zones: row(self.shuffles, self.n, r),
        }
    }
}

// Row r of a list that has rows of n one after another.
pub(super) fn row(list: &[u8], n: usize, r: usize) -> &[u8]
    requires { r * n + n ≤ length list.now }
    ensures { result.now ≡ take n (drop (r * n) list.now) }
{
    let first = r * n;
    &list[first..first + n]
}
