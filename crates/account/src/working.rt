// The work on zones all of which count: their local numerators, the sums over their pairs, and all sums.
ghost use Rattle.std.specs.Prelude.{◌≡◌, [], ◌∷◌, ◌++◌, ◌≤◌, pos, length, sum};
ghost use Rattle.account.specs.Answers.{listed, zones_figures};
ghost use Rattle.account.specs.Steps.{Weighted, zones_locals};

use crate::lists::{JobLists, Summed, Weighed};
use crate::{Sums, deviations, differences};

// W, of up to 64 × 64 weights: without a sign, since for a signed sum at the end of a chain the check finds no bound.
fn weight_sum(weights: &[u8]) -> u32
    requires { length weights.now ≤ 4096 }
    ensures { result ≡ sum weights.now }
{
    weights.iter().map(|weight| u32::from(*weight)).sum()
}

// The local numerators of n zones, from their values with S and the weights between them.
pub(super) fn zone_locals(summed: &Summed, weights: &[u8], locals: &mut [i64])
    requires weighted { Weighted weights.now summed.now.list.n }
    requires locals_len { length locals.old ≡ summed.now.list.n }
    ensures { locals.new ≡ zones_locals summed.now.list.n summed.now.list.values.now weights.now }
{
    let n = summed.list.n;
    let mut d: [i64; 64] = [0; 64];
    deviations::deviations(summed, &mut d[..n]);
    let weighed = Weighed {
        n,
        weights,
        d: &d[..n],
    };
    deviations::local_numerators(&weighed, locals);
}

// The sums of n zones, with their local numerators in `locals`; so many values of the whole job are not returned.
pub(super) fn zone_sums(job: &JobLists, missing: usize, locals: &mut [i64]) -> Sums
    requires { length locals.old ≡ job.now.n }
    ensures result_value { listed result
        ≡ zones_figures job.now.n job.now.values.now job.now.weights.now ++ (pos missing ∷ []) }
    ensures locals_after { locals.new ≡ zones_locals job.now.n job.now.values.now job.now.weights.now }
{
    let JobLists { n, weights, .. } = *job;
    let summed = job.summed();
    let spread = differences::spread(&summed);
    zone_locals(&summed, weights, locals);
    let cross = deviations::sum_of(locals);
    let weight = i64::from(weight_sum(weights));
    let squares = differences::squares(job);
    Sums {
        total: summed.total,
        spread,
        weight,
        cross,
        squares,
        kept: n,
        missing,
    }
}
