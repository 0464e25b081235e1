// The account, the class account and the float report, whole and plain, of one job under one assignment of classes, and demand 3 of what
// they hand out together: a layer above them, which relies on their promises alone.
#![tactic(auto)]

mod working;

ghost use Rattle.std.specs.Prelude.{◌≡◌};
ghost use Rattle.std.specs.Result.{IsOkAnd};
ghost use Rattle.refusals.specs.Refusals.{number_of};
ghost use Rattle.agreement.specs.EveryFigure.{lists, answer_in};
ghost use Rattle.agreement.specs.EveryFigure.{every_refusal, every_answer, every_left};
ghost use Rattle.agreement.specs.Demand3.{Demand3};

use account::Sums;
use coefficients::Report;
use judges::Places;
use nearest::Side;
use refusals::Refusal;

// What the four calls answer of an accepted job: the account, the class account, the float report and the plain report.
#[derive(Clone, Copy)]
pub struct Every {
    pub account: Sums,
    pub classes: Sums,
    pub report: Report,
    pub plain: Report,
}

// Makes the four calls on the job, whose pairs have the classes lent. `locals` is lent to the account; `rows`, `class_locals` and `own` to
// the class account; `figures`, `sides`, `parts` and `part_sides` to the float report; and `plain_rows`, `plain_locals`, `plain_figures`
// and `plain_sides` to the plain report. Where one of the calls would refuse the job or its classes, or a list is not of its length, all
// four are refused, and every list is left as it was.
pub fn every_figure(
    n: usize,
    values: &[i32],
    weights: &[u8],
    classes: &[u8],
    locals: &mut [i64],
    rows: &mut [i64],
    class_locals: &mut [i64],
    own: &mut [i64],
    figures: &mut [u64],
    sides: &mut [Side],
    parts: &mut [u64],
    part_sides: &mut [Side],
    plain_rows: &mut [i64],
    plain_locals: &mut [i64],
    plain_figures: &mut [u64],
    plain_sides: &mut [Side],
) -> Result<Every, Refusal>
    ensures number { number_of result ≡ every_refusal n values.now weights.now classes.now
        (lists locals.old rows.old class_locals.old own.old
        figures.old sides.old parts.old part_sides.old
        plain_rows.old plain_locals.old plain_figures.old plain_sides.old) }
    ensures answer { answer_in result ≡ every_answer n values.now weights.now classes.now
        (lists locals.old rows.old class_locals.old own.old
        figures.old sides.old parts.old part_sides.old
        plain_rows.old plain_locals.old plain_figures.old plain_sides.old) }
    ensures lent { lists locals.new rows.new class_locals.new own.new
        figures.new sides.new parts.new part_sides.new
        plain_rows.new plain_locals.new plain_figures.new plain_sides.new
        ≡ every_left n values.now weights.now classes.now
        (lists locals.old rows.old class_locals.old own.old
        figures.old sides.old parts.old part_sides.old
        plain_rows.old plain_locals.old plain_figures.old plain_sides.old) }
    ensures demand3 { every_refusal n values.now weights.now classes.now
        (lists locals.old rows.old class_locals.old own.old
        figures.old sides.old parts.old part_sides.old
        plain_rows.old plain_locals.old plain_figures.old plain_sides.old) ≡ 0 →
        IsOkAnd result (λ out. Demand3 n out
        (lists locals.new rows.new class_locals.new own.new
        figures.new sides.new parts.new part_sides.new
        plain_rows.new plain_locals.new plain_figures.new plain_sides.new)) }
{
    judges::judge_lent(
        n,
        &[
            (locals.len(), Places::Zones),
            (rows.len(), Places::Fixed(27)),
            (class_locals.len(), Places::ClassZones),
            (own.len(), Places::Zones),
            (figures.len(), Places::Zones),
            (sides.len(), Places::Zones),
            (parts.len(), Places::ClassZones),
            (part_sides.len(), Places::ClassZones),
            (plain_rows.len(), Places::Fixed(27)),
            (plain_locals.len(), Places::Zones),
            (plain_figures.len(), Places::Zones),
            (plain_sides.len(), Places::Zones),
        ],
    )?;
    let sums = account::class_account(n, values, weights, classes, rows, class_locals, own)?;
    Ok(working::work_others(
        n,
        values,
        weights,
        classes,
        sums,
        locals,
        figures,
        sides,
        parts,
        part_sides,
        plain_rows,
        plain_locals,
        plain_figures,
        plain_sides,
    ))
}
