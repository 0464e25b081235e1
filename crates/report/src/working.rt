// The calls on a job, and its lines from what they answer. No call refuses the job of an accepted image, so that each answer is unwrapped.
ghost use Rattle.std.specs.Prelude.{◌≡◌, cond, [], ◌++◌, suc, ◌≤◌, eqb, length, take};
ghost use Rattle.whole.specs.Table.{each};
ghost use Rattle.kept.specs.Returned.{reduced};
ghost use Rattle.account.specs.Rank.{three, job_rank};
ghost use Rattle.hot_list.specs.HotList.{in_order};
ghost use Rattle.coefficients.specs.Steps.{ReadablePair, ReadablePairs};
ghost use Rattle.report.specs.Text.{numbered, pair_lines, rank_line, where_given, job_text};
ghost use Rattle.report.specs.Steps.{Put, Room, Within, SoundJob, Joinable, Bandable, Classed, Rankable};
ghost use Rattle.report.specs.Steps.{sum_lines, ratio_lines, zone_line, row_line, job_in};

use crate::Page;
use crate::lines::{self, Zones};
use crate::putting::{self, Line};
use account::Counts;
use coefficients::{Pair, Whole};
use image::Lists;
use nearest::Side;

// Each pair of zones in the class of its band, and in class 0 where there are no bands.
fn class_pairs(n: usize, places: &[i32], bands: &[u32], classes: &mut [u8])
    requires { Bandable n places.now bands.now (length classes.old) }
    ensures { Classed n places.now bands.now classes.new }
{
    classes.fill(0);
    if !bands.is_empty() {
        places::bands(n, places, bands, classes).unwrap();
    }
}

// The zones kept, so many of them, in hot-list order.
fn put_hot_list(page: &mut [u8], at: usize, zones: &Zones, many: usize, spread: i64) -> usize
    requires few { many ≤ length zones.now.locals.now }
    requires room { Room page.old at 8256 }
    ensures { Put page.old page.new at result 8256
        (each (zone_line zones.now.locals.now zones.now.figures.now zones.now.sides.now spread)
        (take many (in_order (length zones.now.locals.now) zones.now.values.now zones.now.weights.now zones.now.locals.now))) }
{
    let n = zones.locals.len();
    let mut space: [u8; 64] = [0; 64];
    hot_list::order(
        n,
        zones.values,
        zones.weights,
        zones.locals,
        &mut space[..n],
    )
    .unwrap();
    lines::put_zones(page, at, &space[..many], zones, spread)
}

// The lines that every report has: those of the whole job, then those of its zones kept.
fn put_account(page: &mut Page, whole: Whole, zones: &Zones) -> usize
    requires within { Within whole.sums }
    requires readable_pair { ReadablePair whole.pair }
    requires few { whole.sums.kept ≤ length zones.now.locals.now }
    ensures { Put page.old page.new 0 result 8802
        ((sum_lines whole.sums ++ ratio_lines whole.sums whole.pair)
        ++ each (zone_line zones.now.locals.now zones.now.figures.now zones.now.sides.now whole.sums.spread)
        (take whole.sums.kept
        (in_order (length zones.now.locals.now) zones.now.values.now zones.now.weights.now zones.now.locals.now))) }
{
    let sums = whole.sums;
    let spread = sums.spread;
    let many = sums.kept;
    let place = lines::put_sums(page, 0, sums);
    let end = lines::put_ratios(page, place, whole);
    put_hot_list(page, end, zones, many, spread)
}

// The pair lines, which need categories.
fn put_pairs(page: &mut [u8], at: usize, values: &[i32], categories: &[u8], weights: &[u8]) -> usize
    requires joinable { Joinable (length values.now) values.now categories.now weights.now }
    requires room { Room page.old at 6144 }
    ensures { Put page.old page.new at result 6144
        (where_given categories.now
        (pair_lines (length values.now) categories.now (reduced (length values.now) values.now weights.now))) }
{
    if categories.is_empty() {
        return at;
    }
    let mut table: [i64; 64] = [0; 64];
    joins::join_table(values.len(), values, categories, weights, &mut table).unwrap();
    lines::put_table(page, at, &table)
}

// The class lines, which need bands, of which there are so many.
fn put_classes(
    page: &mut [u8],
    at: usize,
    rows: &[i64; 27],
    pairs: [Pair; 9],
    bands: usize,
) -> usize
    requires readable_pairs { ReadablePairs pairs }
    requires bands_bound { bands ≤ 8 }
    requires room { Room page.old at 1161 }
    ensures { Put page.old page.new at result 1161
        (cond (eqb bands 0) [] (each (row_line rows.now pairs) (numbered (suc bands)))) }
{
    if bands == 0 {
        return at;
    }
    lines::put_rows(page, at, rows, pairs, bands)
}

// The counts of all shuffles. An image has no desk numbers, so that each shuffle is desk 0's.
fn rank_all(values: &[i32], weights: &[u8], shuffles: &[u8]) -> Counts
    requires { Rankable (length values.now) values.now weights.now shuffles.now }
    ensures { three result ≡ job_rank (length values.now) values.now weights.now shuffles.now }
{
    let n = values.len();
    let rows = shuffles.len() / n;
    let desks: [u8; 499] = rooms::room();
    account::rank(n, values, weights, shuffles, &desks[..rows]).unwrap()[0]
}

// The rank line, which needs a shuffle.
fn put_rank(page: &mut [u8], at: usize, values: &[i32], weights: &[u8], shuffles: &[u8]) -> usize
    requires rankable { Rankable (length values.now) values.now weights.now shuffles.now }
    requires room { Room page.old at 96 }
    ensures { Put page.old page.new at result 96
        (where_given shuffles.now (rank_line (length values.now) values.now weights.now shuffles.now)) }
{
    if shuffles.is_empty() {
        return at;
    }
    let counts = rank_all(values, weights, shuffles);
    // no From leads here from a usize; TryFrom and an unwrap is no plainer
    let line = Line {
        word: b"rank",
        numbers: &[
            counts.less as i64,
            counts.equal as i64,
            counts.greater as i64,
        ],
    };
    putting::put_line(page, at, &line)
}

// The lines of a job.
pub(super) fn put_job(page: &mut Page, lists: &Lists) -> usize
    requires { SoundJob (length lists.now.values.now) (job_in lists.now) }
    ensures { Put page.old page.new 0 result 16203
        (job_text (length lists.now.values.now) (job_in lists.now)) }
{
    let Lists {
        values,
        categories,
        weights,
        places,
        bands,
        shuffles,
    } = *lists;
    let n = values.len();
    let pairs = n * n;
    let mut class_space: [u8; 4096] = rooms::room();
    let classes = &mut class_space[..pairs];
    class_pairs(n, places, bands, classes);
    let mut rows: [i64; 27] = [0; 27];
    let mut local_space: [i64; 64] = [0; 64];
    let locals = &mut local_space[..n];
    let mut figure_space: [u64; 64] = [0; 64];
    let figures = &mut figure_space[..n];
    let mut side_space: [Side; 64] = [Side::Equal; 64];
    let sides = &mut side_space[..n];
    let report = coefficients::plain_report(
        n, values, weights, classes, &mut rows, locals, figures, sides,
    )
    .unwrap();
    let zones = Zones {
        values,
        weights,
        locals,
        figures,
        sides,
    };
    let at_pairs = put_account(page, report.whole, &zones);
    let at_classes = put_pairs(page, at_pairs, values, categories, weights);
    let at_rank = put_classes(page, at_classes, &rows, report.classes, bands.len());
    put_rank(page, at_rank, values, weights, shuffles)
}
