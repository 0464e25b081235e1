// The class account's work on zones all of which count: one pass over their pairs, each added to the sums of its own class.
ghost use Rattle.std.specs.Prelude.{◌≡◌, [], ◌∷◌, ◌++◌, ℕ, ◌*◌, ◌+◌, ◌≤◌, ◌<◌, pos, nat_abs, length};
ghost use Rattle.whole.specs.Sum.{sum};
ghost use Rattle.whole.specs.Table.{table_rows};
ghost use Rattle.account.specs.Answers.{listed, zones_figures};
ghost use Rattle.account.specs.Classes.{row_at};
ghost use Rattle.account.specs.Steps.{most_local, Sized, zones_locals, zones_class_sums, zones_class_locals, row_added, zone_part, Zoned, Owned};

use crate::lists::{ClassDeviations, ClassLists, JobLists};
use crate::{ClassRow, Sums, deviations, differences};

// Adds to W, P and G of class k. A local numerator is the largest number that is added, and 64 of them fit. One function adds to the lent
// rows and to a zone's parts, and finds the sums by place: in rows of three every clause here would be on a list of lists.
// A ClassRow for the three is no plainer: both callers would put it together only for it to be taken apart here.
pub(super) fn add_row(rows: &mut [i64], k: usize, weight: i64, cross: i64, squares: i64)
    requires sized { Sized 6039797760000000000 rows.old 27 }
    requires k_bound { k < 9 }
    requires weight_bound { nat_abs weight ≤ most_local }
    requires cross_bound { nat_abs cross ≤ most_local }
    requires squares_bound { nat_abs squares ≤ most_local }
    ensures { rows.new ≡ row_added rows.old k weight cross squares }
{
    // by places: of what as_chunks_mut has lent a proof knows nothing afterwards
    let place = k * 3;
    rows[place] += weight;
    rows[place + 1] += cross;
    rows[place + 2] += squares;
}

// Adds the pairs of zone i to the three sums of their classes: the weight of each, the weight times d(j), and the weight times
// (x(i) - x(j)) squared.
pub(super) fn add_pairs(work: &ClassDeviations, i: usize, parts: &mut [i64])
    requires i_lt_n { i < work.now.lists.job.n }
    requires parts_value { parts.old ≡ table_rows (λ k place. pos 0) 9 3 }
    ensures { parts.new
        ≡ table_rows (zone_part work.now.lists.job.n work.now.lists.job.values.now work.now.lists.job.weights.now
        work.now.lists.classes.now i) 9 3 }
{
    let ClassLists { job, classes } = work.lists;
    let JobLists { n, values, weights } = job;
    let first = i * n;
    let own = values[i];
    for j in 0..n {
        let pair = first + j;
        let k = usize::from(classes[pair]);
        let weight = i64::from(weights[pair]);
        let deviation = work.d[j];
        let square = differences::squared_difference(own, values[j]);
        add_row(parts, k, weight, weight * deviation, weight * square);
    }
}

// Adds zone i to the three sums of each class, and puts its local numerators, of which P is the sum, into their places: those of the
// classes, and its own, which they add up to.
pub(super) fn add_zone(
    work: &ClassDeviations,
    i: usize,
    rows: &mut [i64; 27],
    class_locals: &mut [i64],
    locals: &mut [i64],
)
    requires i_lt_n { i < work.now.lists.job.n }
    requires zoned { Zoned work.now.lists.job.n work.now.lists.job.values.now work.now.lists.job.weights.now
        work.now.lists.classes.now (λ k. i) rows.old class_locals.old }
    requires owned { Owned work.now.lists.job.n work.now.lists.job.values.now work.now.lists.job.weights.now i locals.old }
    ensures zoned_2 { Zoned work.now.lists.job.n work.now.lists.job.values.now work.now.lists.job.weights.now
        work.now.lists.classes.now (λ k. i + 1) rows.new class_locals.new }
    ensures owned_2 { Owned work.now.lists.job.n work.now.lists.job.values.now work.now.lists.job.weights.now (i + 1) locals.new }
{
    let n = work.lists.job.n;
    let mut parts: [i64; 27] = [0; 27];
    add_pairs(work, i, &mut parts);
    let deviation = work.d[i];
    let mut own: i64 = 0;
    for k in 0..9 {
        let place = k * 3;
        let weight = parts[place];
        let local = deviation * parts[place + 1];
        let squares = parts[place + 2];
        add_row(rows, k, weight, local, squares);
        class_locals[k * n + i] = local;
        own += local;
    }
    locals[i] = own;
}

// The rows and the local numerators, zone by zone.
pub(super) fn add_zones(
    work: &ClassDeviations,
    rows: &mut [i64; 27],
    class_locals: &mut [i64],
    locals: &mut [i64],
)
    requires class_locals_len { length class_locals.old ≡ 9 * work.now.lists.job.n }
    requires locals_len { length locals.old ≡ work.now.lists.job.n }
    ensures rows_after { rows.new
        ≡ zones_class_sums work.now.lists.job.n work.now.lists.job.values.now work.now.lists.job.weights.now work.now.lists.classes.now }
    ensures class_locals_after { class_locals.new
        ≡ zones_class_locals work.now.lists.job.n work.now.lists.job.values.now work.now.lists.job.weights.now work.now.lists.classes.now }
    ensures locals_after { locals.new
        ≡ zones_locals work.now.lists.job.n work.now.lists.job.values.now work.now.lists.job.weights.now }
{
    rows.fill(0);
    for i in 0..work.lists.job.n {
        add_zone(work, i, rows, class_locals, locals);
    }
}

// W and G of the nine classes together.
pub(super) fn nine_together(rows: &[i64; 27]) -> (i64, i64)
    requires weights { (k : ℕ) → k < 9 → nat_abs ((row_at rows.now k).weight) ≤ most_local }
    requires squares { (k : ℕ) → k < 9 → nat_abs ((row_at rows.now k).squares) ≤ most_local }
    ensures weight { result.0 ≡ sum (λ k. (row_at rows.now k).weight) 9 }
    ensures square { result.1 ≡ sum (λ k. (row_at rows.now k).squares) 9 }
{
    // by a loop: for a signed sum at the end of a chain the check finds no bound
    let mut weight: i64 = 0;
    let mut squares: i64 = 0;
    for row in &ClassRow::all(rows) {
        weight += row.weight;
        squares += row.squares;
    }
    (weight, squares)
}

// What is stored goes to three lists of the caller's, here as above: that each has its room is a clause of each function, since n is the
// job's. The class account of n zones, and the sums of them all, where so many values of the whole job are not returned: the rows give their
// W and G, the job's own numerators their P.
pub(super) fn zone_classes(
    lists: &ClassLists,
    missing: usize,
    rows: &mut [i64; 27],
    class_locals: &mut [i64],
    locals: &mut [i64],
) -> Sums
    requires class_locals_len { length class_locals.old ≡ 9 * lists.now.job.n }
    requires locals_len { length locals.old ≡ lists.now.job.n }
    ensures result_value { listed result
        ≡ zones_figures lists.now.job.n lists.now.job.values.now lists.now.job.weights.now ++ (pos missing ∷ []) }
    ensures rows_after { rows.new ≡ zones_class_sums lists.now.job.n lists.now.job.values.now lists.now.job.weights.now
        lists.now.classes.now }
    ensures class_locals_after { class_locals.new
        ≡ zones_class_locals lists.now.job.n lists.now.job.values.now lists.now.job.weights.now lists.now.classes.now }
    ensures locals_after { locals.new ≡ zones_locals lists.now.job.n lists.now.job.values.now lists.now.job.weights.now }
{
    let n = lists.job.n;
    let summed = lists.job.summed();
    let spread = differences::spread(&summed);
    let mut d: [i64; 64] = [0; 64];
    deviations::deviations(&summed, &mut d[..n]);
    let work = ClassDeviations {
        lists: *lists,
        d: &d[..n],
    };
    add_zones(&work, rows, class_locals, locals);
    let (weight, squares) = nine_together(rows);
    let cross = deviations::sum_of(locals);
    Sums {
        total: summed.total,
        spread,
        weight,
        cross,
        squares,
        kept: n,
        missing,
    }
}
