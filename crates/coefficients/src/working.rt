// The report's work on lists that were judged.
ghost use Rattle.std.specs.Prelude.{◌≡◌, ◌≤◌, length, take};
ghost use Rattle.whole.specs.Table.{table};
ghost use Rattle.account.specs.Classes.{row_at};
ghost use Rattle.coefficients.specs.Coefficients.{pair_of, local_figures, local_sides};
ghost use Rattle.coefficients.specs.Steps.{whole_row, Reportable, Lists, rest_refusal, Reports};

use crate::{Report, Whole, forming};
use account::{ClassRow, Sums};
use nearest::Side;
use refusals::Refusal;

// The report of an accepted job, from what its class account answered and left. `parts` has places for the figures of the first of the
// local numerators of the classes.
pub(super) fn report_job(
    sums: Sums,
    rows: &[i64; 27],
    class_locals: &[i64],
    locals: &[i64],
    figures: &mut [u64],
    sides: &mut [Side],
    parts: &mut [u64],
    part_sides: &mut [Side],
) -> Report
    requires reportable { Reportable sums rows.now class_locals.now locals.now }
    requires figures_len { length figures.old ≡ length locals.now }
    requires sides_len { length sides.old ≡ length locals.now }
    requires parts_in_bounds { length parts.old ≤ length class_locals.now }
    requires part_sides_len { length part_sides.old ≡ length parts.old }
    ensures value { result ≡ record {
      whole = record { sums = sums; pair = pair_of sums.kept sums.spread (whole_row sums) };
      classes = table (λ k. pair_of sums.kept sums.spread (row_at rows.now k)) 9;
    } }
    ensures figures_after { figures.new ≡ local_figures sums.spread locals.now }
    ensures sides_after { sides.new ≡ local_sides sums.spread locals.now }
    ensures parts_after { parts.new
        ≡ local_figures sums.spread (take (length parts.old) class_locals.now) }
    ensures part_sides_after { part_sides.new
        ≡ local_sides sums.spread (take (length parts.old) class_locals.now) }
{
    let spread = sums.spread;
    let kept = sums.kept;
    let row = ClassRow::from(sums);
    forming::put_figures(spread, locals, figures, sides);
    let wanted = parts.len();
    forming::put_figures(spread, &class_locals[..wanted], parts, part_sides);
    let pair = forming::pair(kept, spread, row);
    Report {
        whole: Whole { sums, pair },
        classes: forming::class_pairs(kept, spread, rows),
    }
}

// The report of a call whose n and whose lent lists were judged: the class account judges the rest. `parts` has places for the local
// figures of the classes, or for the first of them, or for none. The lists go one by one, as the two calls are lent them: a struct of them
// would be put together for this one call, and taken apart in it.
pub(super) fn report_sized(
    n: usize,
    values: &[i32],
    weights: &[u8],
    classes: &[u8],
    rows: &mut [i64; 27],
    class_locals: &mut [i64],
    locals: &mut [i64],
    figures: &mut [u64],
    sides: &mut [Side],
    parts: &mut [u64],
    part_sides: &mut [Side],
) -> Result<Report, Refusal>
    requires { Lists n class_locals.old locals.old figures.old sides.old parts.old part_sides.old }
    ensures { Reports (rest_refusal n values.now weights.now classes.now) n
        values.now weights.now classes.now
        rows.old locals.old figures.old sides.old parts.old part_sides.old result
        rows.new locals.new figures.new sides.new parts.new part_sides.new }
{
    let sums = account::class_account(n, values, weights, classes, rows, class_locals, locals)?;
    Ok(report_job(
        sums,
        rows,
        class_locals,
        locals,
        figures,
        sides,
        parts,
        part_sides,
    ))
}
