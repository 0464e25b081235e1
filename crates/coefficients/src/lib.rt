// The float report of a job under one assignment of classes: a layer above the account, which relies on its promises alone.
#![tactic(auto)]

mod forming;
mod working;

ghost use Rattle.std.specs.Prelude.{◌≡◌};
ghost use Rattle.refusals.specs.Refusals.{number_of};
ghost use Rattle.coefficients.specs.FloatReport.{sums_in, pair_in, pairs_in, report_refusal};
ghost use Rattle.coefficients.specs.FloatReport.{report_sums, report_whole, report_classes};
ghost use Rattle.coefficients.specs.FloatReport.{report_figures, report_sides, report_parts, report_part_sides};
ghost use Rattle.coefficients.specs.FloatReport.{plain_refusal, plain_sums, plain_whole, plain_classes};
ghost use Rattle.coefficients.specs.FloatReport.{plain_rows, plain_locals, plain_figures, plain_sides};

use account::Sums;
use judges::Places;
use nearest::Side;
use refusals::Refusal;

// A coefficient: the nearest float to its exact ratio, and on which side of it that float lies. A class without weight has none, and says so:
// a rule of the project asks for an enum with a case for that, and no Option.
#[derive(Clone, Copy)]
pub enum Coefficient {
    Figure(f64, Side),
    Weightless,
}

// The pair of coefficients of one class, or of the whole job, whose pair always has its two figures.
#[derive(Clone, Copy)]
pub struct Pair {
    pub moran: Coefficient,
    pub geary: Coefficient,
}

// The whole job: its sums, and the pair that is formed of them.
#[derive(Clone, Copy)]
pub struct Whole {
    pub sums: Sums,
    pub pair: Pair,
}

// The whole job, and the pairs of the nine classes.
#[derive(Clone, Copy)]
pub struct Report {
    pub whole: Whole,
    pub classes: [Pair; 9],
}

// Works the float report of the job, whose pairs have the classes lent: `figures` has n places for the bits of the local Moran of each
// zone, and `parts` 9 × n for those in class 0, in class 1, .. `sides` and `part_sides` have as many for which way each was rounded. All four are left as they were where the job is refused.
pub fn float_report(
    n: usize,
    values: &[i32],
    weights: &[u8],
    classes: &[u8],
    figures: &mut [u64],
    sides: &mut [Side],
    parts: &mut [u64],
    part_sides: &mut [Side],
) -> Result<Report, Refusal>
    ensures number { number_of result ≡ report_refusal n
        values.now weights.now classes.now figures.old sides.old parts.old part_sides.old }
    ensures sums { sums_in result ≡ report_sums n
        values.now weights.now classes.now figures.old sides.old parts.old part_sides.old }
    ensures whole { pair_in result ≡ report_whole n
        values.now weights.now classes.now figures.old sides.old parts.old part_sides.old }
    ensures pairs { pairs_in result ≡ report_classes n
        values.now weights.now classes.now figures.old sides.old parts.old part_sides.old }
    ensures figures { figures.new ≡ report_figures n
        values.now weights.now classes.now figures.old sides.old parts.old part_sides.old }
    ensures sides { sides.new ≡ report_sides n
        values.now weights.now classes.now figures.old sides.old parts.old part_sides.old }
    ensures parts { parts.new ≡ report_parts n
        values.now weights.now classes.now figures.old sides.old parts.old part_sides.old }
    ensures part_sides { part_sides.new ≡ report_part_sides n
        values.now weights.now classes.now figures.old sides.old parts.old part_sides.old }
{
    judges::judge_lent(
        n,
        &[
            (figures.len(), Places::Zones),
            (sides.len(), Places::Zones),
            (parts.len(), Places::ClassZones),
            (part_sides.len(), Places::ClassZones),
        ],
    )?;
    let places = 9 * n;
    let mut rows: [i64; 27] = [0; 27];
    let mut class_locals: [i64; 576] = [0; 576];
    let mut locals: [i64; 64] = [0; 64];
    working::report_sized(
        n,
        values,
        weights,
        classes,
        &mut rows,
        &mut class_locals[..places],
        &mut locals[..n],
        figures,
        sides,
        parts,
        part_sides,
    )
}

// The float report without the local figures of the classes, which are most of its divisions, but with the whole numbers that it is formed
// of, as a report prints both: `rows` has 27 places for W, P and G of each class, `locals` n for the local numerators, `figures` n for
// the bits of the local Moran of each zone, and `sides` n for which way it was rounded. All four are left as they were where the job is refused.
pub fn plain_report(
    n: usize,
    values: &[i32],
    weights: &[u8],
    classes: &[u8],
    rows: &mut [i64],
    locals: &mut [i64],
    figures: &mut [u64],
    sides: &mut [Side],
) -> Result<Report, Refusal>
    ensures number { number_of result ≡ plain_refusal n values.now weights.now classes.now
        rows.old locals.old figures.old sides.old }
    ensures sums { sums_in result ≡ plain_sums n values.now weights.now classes.now
        rows.old locals.old figures.old sides.old }
    ensures whole { pair_in result ≡ plain_whole n values.now weights.now classes.now
        rows.old locals.old figures.old sides.old }
    ensures pairs { pairs_in result ≡ plain_classes n values.now weights.now classes.now
        rows.old locals.old figures.old sides.old }
    ensures rows { rows.new ≡ plain_rows n values.now weights.now classes.now
        rows.old locals.old figures.old sides.old }
    ensures locals { locals.new ≡ plain_locals n values.now weights.now classes.now
        rows.old locals.old figures.old sides.old }
    ensures figures { figures.new ≡ plain_figures n values.now weights.now classes.now
        rows.old locals.old figures.old sides.old }
    ensures sides { sides.new ≡ plain_sides n values.now weights.now classes.now
        rows.old locals.old figures.old sides.old }
{
    judges::judge_lent(
        n,
        &[
            (rows.len(), Places::Fixed(27)),
            (locals.len(), Places::Zones),
            (figures.len(), Places::Zones),
            (sides.len(), Places::Zones),
        ],
    )?;
    let places = 9 * n;
    let mut class_locals: [i64; 576] = [0; 576];
    working::report_sized(
        n,
        values,
        weights,
        classes,
        rows.as_mut_array().unwrap(),
        &mut class_locals[..places],
        locals,
        figures,
        sides,
        &mut [], // the local figures of the classes get no place, nor do their sides
        &mut [],
    )
}
