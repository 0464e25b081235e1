// The calls on a job that was accepted.
ghost use Rattle.std.specs.Prelude.{◌≡◌};
ghost use Rattle.agreement.specs.EveryFigure.{job_sums, job_answers};
ghost use Rattle.agreement.specs.Steps.{Callable, OthersLeft};

use crate::Every;
use account::Sums;
use nearest::Side;

// The other three calls on a job that the class account accepted, with lists that fit: none of them refuses anything. `sums` is what the
// class account answered.
// The lists go one by one: a struct of them would be put together for this one call, and taken apart in it.
pub(super) fn work_others(
    n: usize,
    values: &[i32],
    weights: &[u8],
    classes: &[u8],
    sums: Sums,
    locals: &mut [i64],
    figures: &mut [u64],
    sides: &mut [Side],
    parts: &mut [u64],
    part_sides: &mut [Side],
    plain_rows: &mut [i64],
    plain_locals: &mut [i64],
    plain_figures: &mut [u64],
    plain_sides: &mut [Side],
) -> Every
    requires callable { Callable n values.now weights.now classes.now
        locals.old figures.old sides.old parts.old part_sides.old
        plain_rows.old plain_locals.old plain_figures.old plain_sides.old }
    requires sums_value { sums ≡ job_sums n values.now weights.now }
    ensures value { result ≡ job_answers n values.now weights.now classes.now }
    ensures others_left { OthersLeft n values.now weights.now classes.now
        locals.new figures.new sides.new parts.new part_sides.new
        plain_rows.new plain_locals.new plain_figures.new plain_sides.new }
{
    let accounted = account::account(n, values, weights, locals).unwrap();
    let report = coefficients::float_report(
        n, values, weights, classes, figures, sides, parts, part_sides,
    )
    .unwrap();
    let plain = coefficients::plain_report(
        n,
        values,
        weights,
        classes,
        plain_rows,
        plain_locals,
        plain_figures,
        plain_sides,
    )
    .unwrap();
    Every {
        account: accounted,
        classes: sums,
        report,
        plain,
    }
}
