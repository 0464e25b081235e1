// The account, the class account, the hot list and the rank.
ghost use Rattle.std.specs.Prelude.{◌≡◌};
ghost use Rattle.refusals.specs.Refusals.{number_of};
ghost use Rattle.account.specs.Refusals.{account_refusal};
ghost use Rattle.hot_list.specs.HotList.{hot_zones};
ghost use Rattle.exports.specs.Jobs.{account_number, locals_after, sums_after, rank_number, rank_after};
ghost use Rattle.exports.specs.Jobs.{class_number, rows_after, class_locals_after};

use crate::storing;
use judges::Places;
use refusals::Refusal;

// What `dca_account` answers, as a Result.
fn account_into(
    n: usize,
    values: &[i32],
    weights: &[u8],
    locals: &mut [i64],
    sums: &mut [i64],
) -> Result<(), Refusal>
    ensures number { number_of result ≡ account_number n values.now weights.now locals.old sums.old }
    ensures locals { locals.new
        ≡ locals_after n values.now weights.now locals.old sums.old }
    ensures sums { sums.new
        ≡ sums_after n values.now weights.now locals.old sums.old }
{
    judges::judge_lent(
        n,
        &[
            (values.len(), Places::Zones),
            (weights.len(), Places::Pairs),
            (sums.len(), Places::Fixed(7)),
        ],
    )?;
    let figures = account::account(n, values, weights, locals)?;
    storing::put_sums(figures, sums);
    Ok(())
}

// The local numerators go to `locals`, n places, and S, M, W, P, G, the number of zones kept and that of values not returned to `sums`, 7
// places.
#[unsafe(no_mangle)]
pub extern "C" fn dca_account(
    n: usize,
    values: &[i32],
    weights: &[u8],
    locals: &mut [i64],
    sums: &mut [i64],
) -> u8
    ensures number { result ≡ account_number n values.now weights.now locals.old sums.old }
    ensures locals { locals.new
        ≡ locals_after n values.now weights.now locals.old sums.old }
    ensures sums { sums.new
        ≡ sums_after n values.now weights.now locals.old sums.old }
{
    refusals::number_of(account_into(n, values, weights, locals, sums))
}

// What `dca_class_account` answers, as a Result.
fn class_account_into(
    n: usize,
    values: &[i32],
    weights: &[u8],
    classes: &[u8],
    rows: &mut [i64],
    class_locals: &mut [i64],
) -> Result<(), Refusal>
    ensures number { number_of result ≡ class_number n values.now weights.now classes.now
        rows.old class_locals.old }
    ensures rows { rows.new ≡ rows_after n values.now weights.now classes.now
        rows.old class_locals.old }
    ensures numerators { class_locals.new ≡ class_locals_after n
        values.now weights.now classes.now rows.old class_locals.old }
{
    judges::judge_lent(
        n,
        &[
            (values.len(), Places::Zones),
            (weights.len(), Places::Pairs),
            (rows.len(), Places::Fixed(27)),
        ],
    )?;
    // The job's own local numerators are not asked for.
    let mut space: [i64; 64] = [0; 64];
    account::class_account(
        n,
        values,
        weights,
        classes,
        rows,
        class_locals,
        &mut space[..n],
    )?;
    Ok(())
}

// W, P and G of class 0, of class 1, .. go to `rows`, 27 places, and the local numerators of class 0, of class 1, .. to `class_locals`,
// 9 × n places.
#[unsafe(no_mangle)]
pub extern "C" fn dca_class_account(
    n: usize,
    values: &[i32],
    weights: &[u8],
    classes: &[u8],
    rows: &mut [i64],
    class_locals: &mut [i64],
) -> u8
    ensures number { result ≡ class_number n values.now weights.now classes.now
        rows.old class_locals.old }
    ensures rows { rows.new ≡ rows_after n values.now weights.now classes.now
        rows.old class_locals.old }
    ensures numerators { class_locals.new ≡ class_locals_after n
        values.now weights.now classes.now rows.old class_locals.old }
{
    refusals::number_of(class_account_into(n, values, weights, classes, rows, class_locals))
}

// The zone numbers by falling L(i), equal ones by falling row sum of the weights that count and then by rising zone number, go to `zones`,
// n places.
#[unsafe(no_mangle)]
pub extern "C" fn dca_hot_list(n: usize, values: &[i32], weights: &[u8], zones: &mut [u8]) -> u8
    ensures number { result ≡ account_refusal n values.now weights.now zones.old }
    ensures lent { zones.new ≡ hot_zones n values.now weights.now zones.old }
{
    refusals::number_of(hot_list::hot_list(n, values, weights, zones))
}

// What `dca_rank` answers, as a Result.
fn rank_into(
    n: usize,
    values: &[i32],
    weights: &[u8],
    shuffles: &[u8],
    desks: &[u8],
    counts: &mut [u64],
) -> Result<(), Refusal>
    ensures number { number_of result ≡ rank_number n values.now weights.now shuffles.now
        desks.now counts.old }
    ensures lent { counts.new ≡ rank_after n values.now weights.now shuffles.now
        desks.now counts.old }
{
    judges::judge_lent(
        n,
        &[
            (values.len(), Places::Zones),
            (weights.len(), Places::Pairs),
            (counts.len(), Places::Fixed(12)),
        ],
    )?;
    let ranks = account::rank(n, values, weights, shuffles, desks)?;
    storing::put_ranks(ranks, counts);
    Ok(())
}

// Of 0 to 499 shuffles, a row of n zone numbers each, with a desk number 0 to 3 each, the numbers of desk 0's whose P is less than, equal to
// and greater than the job's own, then those of desk 1, of desk 2 and of desk 3, go to `counts`, 12 places.
#[unsafe(no_mangle)]
pub extern "C" fn dca_rank(
    n: usize,
    values: &[i32],
    weights: &[u8],
    shuffles: &[u8],
    desks: &[u8],
    counts: &mut [u64],
) -> u8
    ensures number { result ≡ rank_number n values.now weights.now shuffles.now
        desks.now counts.old }
    ensures lent { counts.new ≡ rank_after n values.now weights.now shuffles.now
        desks.now counts.old }
{
    refusals::number_of(rank_into(n, values, weights, shuffles, desks, counts))
}
