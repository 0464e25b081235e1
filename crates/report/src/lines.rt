// The lines of a report, from what the calls answer.
ghost use Rattle.std.specs.Prelude.{suc, ◌*◌, ◌≤◌, ◌<◌, length};
ghost use Rattle.whole.specs.Table.{each};
ghost use Rattle.report.specs.Text.{numbered};
ghost use Rattle.report.specs.Steps.{Put, Room, Within, Zoned, Listed};
ghost use Rattle.coefficients.specs.Steps.{ReadablePair, ReadablePairs};
ghost use Rattle.report.specs.Steps.{sum_lines, ratio_lines, zone_line, table_line, row_line};

use crate::putting::{self, Line, Local};
use account::{ClassRow, Sums};
use coefficients::{Pair, Whole};
use nearest::Side;

// The zones of a job: their values, the weights between them, and of each its local numerator, the bits of its local Moran and its side. These last three stay three lists: the public calls that fill and order them are handed each as one.
#[derive(Clone, Copy)]
pub(super) struct Zones<'a> {
    pub(super) values: &'a [i32],
    pub(super) weights: &'a [u8],
    pub(super) locals: &'a [i64],
    pub(super) figures: &'a [u64],
    pub(super) sides: &'a [Side],
    ghost zoned: { Zoned (length locals.now) (length values.now) (length weights.now) (length figures.now) (length sides.now) },
}

// The number of zones kept, S, M, then W P G. That a figure is no NaN and that at most 64 zones are kept is asked by each function: Pair
// and Sums are public, and a ghost field would ask it of all who make one.
pub(super) fn put_sums(page: &mut [u8], at: usize, sums: Sums) -> usize
    requires kept_bound { sums.kept ≤ 64 }
    requires room { Room page.old at 192 }
    ensures { Put page.old page.new at result 192 (sum_lines sums) }
{
    let kept = sums.kept;
    let total = sums.total;
    let spread = sums.spread;
    let weight = sums.weight;
    let cross = sums.cross;
    let squares = sums.squares;
    // no From leads here from a usize; TryFrom and an unwrap is no plainer
    let zones = Line {
        word: b"zones",
        numbers: &[kept as i64, total, spread],
    };
    let joins = Line {
        word: b"joins",
        numbers: &[weight, cross, squares],
    };
    let place = putting::put_line(page, at, &zones);
    putting::put_line(page, place, &joins)
}

// Moran's I, Geary's c and the expected I, each as a ratio.
pub(super) fn put_ratios(page: &mut [u8], at: usize, whole: Whole) -> usize
    requires within { Within whole.sums }
    requires readable_pair { ReadablePair whole.pair }
    requires room { Room page.old at 354 }
    ensures { Put page.old page.new at result 354 (ratio_lines whole.sums whole.pair) }
{
    let sums = whole.sums;
    let pair = whole.pair;
    let kept = sums.kept;
    let moran = pair.moran;
    let geary = pair.geary;
    let cross = sums.cross;
    let of_moran = Line {
        word: b"moran",
        numbers: &[cross, sums.weight * sums.spread],
    };
    let of_geary = Line {
        word: b"geary",
        numbers: &[
            // no From leads here from a usize; TryFrom and an unwrap is no plainer
            ((kept - 1) * kept) as i64 * sums.squares,
            2 * sums.weight * sums.spread,
        ],
    };
    // no From leads here from a usize; TryFrom and an unwrap is no plainer
    let expected = Line {
        word: b"expected",
        numbers: &[-1, (kept - 1) as i64],
    };
    let place = putting::put_field_line(page, at, &of_moran, moran);
    let end = putting::put_field_line(page, place, &of_geary, geary);
    putting::put_line(page, end, &expected)
}

// The zones in the order given, each with its local numerator, M and its local Moran with its sign.
pub(super) fn put_zones(
    page: &mut [u8],
    at: usize,
    order: &[u8],
    zones: &Zones,
    spread: i64,
) -> usize
    requires listed { Listed order.now (length zones.now.locals.now) }
    requires room { Room page.old at (129 * length order.now) }
    ensures { Put page.old page.new at result (129 * length order.now)
        (each (zone_line zones.now.locals.now zones.now.figures.now zones.now.sides.now spread) order.now) }
{
    let mut place = at;
    for &zone in order {
        let of_zone = usize::from(zone);
        let line = Line {
            word: b"local",
            numbers: &[i64::from(zone), zones.locals[of_zone], spread],
        };
        let local = Local {
            bits: zones.figures[of_zone],
            side: zones.sides[of_zone],
        };
        place = putting::put_field_line(page, place, &line, local);
    }
    place
}

// The entries above 0 of row r of the join table. It lies flat, since the public call that fills it is lent it so, by C too.
fn put_table_row(page: &mut [u8], at: usize, table: &[i64; 64], r: u8) -> usize
    requires r_bound { r < 8 }
    requires room { Room page.old at 768 }
    ensures { Put page.old page.new at result 768 (each (table_line table.now r) (numbered 8)) }
{
    let mut place = at;
    for s in 0..8 {
        let joins = table[usize::from(r * 8 + s)];
        if joins > 0 {
            let line = Line {
                word: b"pair",
                numbers: &[i64::from(r), i64::from(s), joins],
            };
            place = putting::put_line(page, place, &line);
        }
    }
    place
}

// The entries above 0 of the join table, row by row.
pub(super) fn put_table(page: &mut [u8], at: usize, table: &[i64; 64]) -> usize
    requires room { Room page.old at 6144 }
    ensures { Put page.old page.new at result 6144
        (each (λ r. each (table_line table.now r) (numbered 8)) (numbered 8)) }
{
    let mut place = at;
    for r in 0..8 {
        place = put_table_row(page, place, table, r);
    }
    place
}

// The rows of class 0 up to a class, with their pairs: two lists, for so the plain report, a public call, gives them.
pub(super) fn put_rows(
    page: &mut [u8],
    at: usize,
    rows: &[i64; 27],
    pairs: [Pair; 9],
    last: usize,
) -> usize
    requires readable_pairs { ReadablePairs pairs }
    requires last_bound { last ≤ 8 }
    requires room { Room page.old at (129 * suc last) }
    ensures { Put page.old page.new at result (129 * suc last)
        (each (row_line rows.now pairs) (numbered (suc last))) }
{
    let of_classes = ClassRow::all(rows);
    let mut place = at;
    for k in 0..=last {
        let row = of_classes[k];
        let pair = pairs[k];
        // no From leads here from a usize; TryFrom and an unwrap is no plainer
        let line = Line {
            word: b"class",
            numbers: &[k as i64, row.weight, row.cross, row.squares],
        };
        place = putting::put_field_line(page, place, &line, pair);
    }
    place
}
