// The rank's work on zones all of which count: S, d and their own P are worked once, then the P of each shuffle, whatever its desk.
ghost use Rattle.std.specs.Prelude.{◌≡◌, ◌≤◌, length, get_or};
ghost use Rattle.whole.specs.Table.{at, pair_at};
ghost use Rattle.account.specs.Measures.{cross_of};
ghost use Rattle.account.specs.Rank.{shuffled, compared_of, of_desk, zones_desk, three, four, twelve};
ghost use Rattle.account.specs.Steps.{cross_held, cross_moved, more};

use crate::lists::{JobLists, ShuffleRow, ShuffleRows, Weighed};
use crate::{Counts, deviations, shuffling};
use std::cmp::Ordering;

// The P of the deviations d: each row's weighted neighbours are added up first, and multiplied by the row's d once.
pub(super) fn cross_sum(weighed: &Weighed) -> i64
    ensures { result ≡ cross_held weighed.now.weights.now weighed.now.n weighed.now.d.now }
{
    // by a loop: for a signed sum at the end of a chain the check finds no bound
    let mut acc: i64 = 0;
    for (i, deviation) in weighed.d.iter().enumerate() {
        let neighbours = deviations::neighbour_sum(weighed, i);
        acc += *deviation * neighbours;
    }
    acc
}

// The P of a shuffle, from the job's deviations.
pub(super) fn shuffle_cross(weighed: &Weighed, row: &ShuffleRow) -> i64
    requires { length row.now.zones.now ≡ weighed.now.n }
    ensures { result
        ≡ cross_of (pair_at weighed.now.weights.now weighed.now.n)
        (shuffled (at weighed.now.d.now) (λ i. get_or row.now.zones.now i 0)) weighed.now.n }
{
    let Weighed { n, weights, d } = *weighed;
    let mut moved: [i64; 64] = [0; 64];
    shuffling::shuffle_deviations(d, row, &mut moved[..n]);
    cross_sum(&Weighed {
        n,
        weights,
        d: &moved[..n],
    })
}

// The counts with one shuffle more, whose P compares so.
fn counted(counts: Counts, order: Ordering) -> Counts
    requires less_bound { counts.less ≤ 498 }
    requires equal_bound { counts.equal ≤ 498 }
    requires greater_bound { counts.greater ≤ 498 }
    ensures { result ≡ more counts order }
{
    let Counts {
        less,
        equal,
        greater,
    } = counts;
    match order {
        Ordering::Less => Counts {
            less: less + 1,
            equal,
            greater,
        },
        Ordering::Equal => Counts {
            less,
            equal: equal + 1,
            greater,
        },
        Ordering::Greater => Counts {
            less,
            equal,
            greater: greater + 1,
        },
    }
}

// Of each desk, how many of its shuffles have a P less than, equal to, greater than the job's own.
pub(super) fn tally(weighed: &Weighed, shuffles: &ShuffleRows) -> [Counts; 4]
    requires { shuffles.now.n ≡ weighed.now.n }
    ensures { twelve result
        ≡ four (λ k. compared_of (of_desk shuffles.now.desks.now k)
        (cross_moved weighed.now.weights.now weighed.now.n weighed.now.d.now shuffles.now.shuffles.now)
        (cross_held weighed.now.weights.now weighed.now.n weighed.now.d.now) shuffles.now.rows) }
{
    let own = cross_sum(weighed);
    let none = Counts {
        less: 0,
        equal: 0,
        greater: 0,
    };
    let mut counts: [Counts; 4] = [none; 4];
    // by r: chunks_exact is no plainer, as it wants an n above 0, which each caller would have to show for a loop that is no shorter
    for r in 0..shuffles.rows {
        let row = shuffles.shuffle(r);
        let cross = shuffle_cross(weighed, &row);
        let desk = usize::from(shuffles.desks[r]);
        counts[desk] = counted(counts[desk], cross.cmp(&own));
    }
    counts
}

// The rank of n zones, by desk.
pub(super) fn zone_rank(job: &JobLists, shuffles: &ShuffleRows) -> [Counts; 4]
    requires { shuffles.now.n ≡ job.now.n }
    ensures { twelve result
        ≡ four (zones_desk shuffles.now.rows job.now.n job.now.values.now job.now.weights.now shuffles.now.shuffles.now
        shuffles.now.desks.now) }
{
    let JobLists { n, weights, .. } = *job;
    let summed = job.summed();
    // d has its room here, as where the sums are worked: a function for both would have to be lent it, and is no plainer
    let mut d: [i64; 64] = [0; 64];
    deviations::deviations(&summed, &mut d[..n]);
    let weighed = Weighed {
        n,
        weights,
        d: &d[..n],
    };
    tally(&weighed, shuffles)
}
