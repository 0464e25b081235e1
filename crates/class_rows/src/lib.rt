// The class account of a job with its nine rows as structs. A layer above the account, which relies on its promises alone.
#![tactic(auto)]

ghost use Rattle.std.specs.Prelude.{◌≡◌, length};
ghost use Rattle.refusals.specs.Refusals.{number_of};
ghost use Rattle.class_rows.specs.ClassRows.{rows_refusal, rows_left, locals_left};

use account::ClassRow;
use judges::Places;
use refusals::Refusal;

// The class account of the job, whose pairs have the classes lent: `rows` has 9 places for the rows of class 0, class 1, .., and `locals`
// 9 × n for the local numerators of class 0, of class 1, .. Both are left as they were where the job is refused. The job's own local
// numerators, which the class account works too, are not handed out.
pub fn class_rows(
    n: usize,
    values: &[i32],
    weights: &[u8],
    classes: &[u8],
    rows: &mut [ClassRow],
    locals: &mut [i64],
) -> Result<(), Refusal>
    ensures number { number_of result ≡ rows_refusal n
        values.now weights.now classes.now (length rows.old) (length locals.old) }
    ensures rows { rows.new ≡ rows_left n
        values.now weights.now classes.now rows.old locals.old }
    ensures numerators { locals.new ≡ locals_left n
        values.now weights.now classes.now (length rows.old) locals.old }
{
    judges::judge_lent(
        n,
        &[
            (values.len(), Places::Zones),
            (weights.len(), Places::Pairs),
            (rows.len(), Places::Fixed(9)),
        ],
    )?;
    let mut sums: [i64; 27] = [0; 27];
    let mut space: [i64; 64] = [0; 64];
    account::class_account(
        n,
        values,
        weights,
        classes,
        &mut sums,
        locals,
        &mut space[..n],
    )?;
    rows.copy_from_slice(&ClassRow::all(&sums));
    Ok(())
}
