// The account of a job: values and weights give S, M, W, P, G, and the local numerators L(i) go to a lent list. The class account of a
// job and its classes: the same, and W, P, G and the local numerators of each class go to two more. The rank of a job among shuffles of
// its values. All of them are taken over the zones kept, those whose row or column holds some weight that counts: the weights of a zone
// whose value is not returned count as 0.
#![tactic(auto)]

mod class_row;
mod classes;
mod deviations;
mod differences;
mod judging;
mod keeping;
mod kept_zones;
mod lists;
mod ranking;
mod shuffling;
mod working;

ghost use Rattle.std.specs.Prelude.{◌≡◌};
ghost use Rattle.account.specs.Refusals.{account_refusal};
ghost use Rattle.refusals.specs.Refusals.{number_of};
ghost use Rattle.account.specs.Answers.{figures_of, account_figures, account_locals};
ghost use Rattle.account.specs.Classes.{class_refusal, class_account_figures};
ghost use Rattle.account.specs.Classes.{class_account_rows, class_account_locals, class_account_own};
ghost use Rattle.account.specs.Rank.{rank_refusal, rank_counts, counts_of};

// What the reader and the writer of the job image judge by too.
pub use judging::judge;
use lists::ShuffleRows;
use refusals::Refusal;

// The whole numbers of a job.
#[derive(Clone, Copy)]
pub struct Sums {
    // S
    pub total: i64,
    // M
    pub spread: i64,
    // W
    pub weight: i64,
    // P
    pub cross: i64,
    // G
    pub squares: i64,
    // the number of zones kept, over which they are taken
    pub kept: usize,
    // the number of values not returned
    pub missing: usize,
}

// A class row: the three sums over the pairs of a class.
#[derive(Clone, Copy)]
pub struct ClassRow {
    // W
    pub weight: i64,
    // P
    pub cross: i64,
    // G
    pub squares: i64,
}

// How many shuffles of a desk have a P that compares so with the job's own.
#[derive(Clone, Copy)]
pub struct Counts {
    pub less: usize,
    pub equal: usize,
    pub greater: usize,
}

// Works the account of the job. `locals` is lent n places for L(0), L(1), .., which is 0 at a zone left out, and is left as it was where
// the job is refused.
pub fn account(
    n: usize,
    values: &[i32],
    weights: &[u8],
    locals: &mut [i64],
) -> Result<Sums, Refusal>
    ensures number { number_of result ≡ account_refusal n values.now weights.now locals.old }
    ensures figures { figures_of result ≡ account_figures n values.now weights.now locals.old }
    ensures lent { locals.new ≡ account_locals n values.now weights.now locals.old }
{
    let mut zones: [u8; 64] = [0; 64];
    let kept = judging::judge_account(n, values, weights, locals.len(), &mut zones)?;
    Ok(kept_zones::job_sums(&kept, locals))
}

// Works the local numerators alone, by the rules of the account and into `locals` as the account does: for who needs no sums.
pub fn local_numerators(
    n: usize,
    values: &[i32],
    weights: &[u8],
    locals: &mut [i64],
) -> Result<(), Refusal>
    ensures number { number_of result ≡ account_refusal n values.now weights.now locals.old }
    ensures lent { locals.new ≡ account_locals n values.now weights.now locals.old }
{
    let mut space: [u8; 64] = [0; 64];
    let kept = judging::judge_account(n, values, weights, locals.len(), &mut space)?;
    kept_zones::put_locals(&kept, locals);
    Ok(())
}

// Works the class account of the job, whose pairs have the classes lent, and answers what the account answers: `rows` has 27 places for
// W, P and G of class 0, of class 1, .., `class_locals` 9 × n for the local numerators of class 0, of class 1, .., and `locals` n for the
// job's own. All three are left as they were where the job is refused.
pub fn class_account(
    n: usize,
    values: &[i32],
    weights: &[u8],
    classes: &[u8],
    rows: &mut [i64],
    class_locals: &mut [i64],
    locals: &mut [i64],
) -> Result<Sums, Refusal>
    ensures number { number_of result ≡ class_refusal n values.now weights.now classes.now
        rows.old class_locals.old locals.old }
    ensures figures { figures_of result ≡ class_account_figures n values.now weights.now classes.now
        rows.old class_locals.old locals.old }
    ensures rows { rows.new ≡ class_account_rows n values.now weights.now classes.now
        rows.old class_locals.old locals.old }
    ensures numerators { class_locals.new ≡ class_account_locals n
        values.now weights.now classes.now
        rows.old class_locals.old locals.old }
    ensures own { locals.new ≡ class_account_own n values.now weights.now classes.now
        rows.old class_locals.old locals.old }
{
    let mut zones: [u8; 64] = [0; 64];
    let kept = judging::judge_classes(
        n,
        values,
        weights,
        classes,
        rows.len(),
        class_locals.len(),
        locals.len(),
        &mut zones,
    )?;
    Ok(kept_zones::work_classes(
        &kept,
        classes,
        rows.as_mut_array().unwrap(),
        class_locals,
        locals,
    ))
}

// Counts, for each of the desks 0 to 3, its shuffles whose P is less than, equal to and greater than the job's own, which is not counted
// itself. `shuffles` has a row of n zone numbers for each, 0 to 499 of them: the zones kept take, in order, the values of the kept zones
// that it names. `desks` has a desk number for each row.
pub fn rank(
    n: usize,
    values: &[i32],
    weights: &[u8],
    shuffles: &[u8],
    desks: &[u8],
) -> Result<[Counts; 4], Refusal>
    ensures number { number_of result ≡ rank_refusal n values.now weights.now shuffles.now desks.now }
    ensures counts { counts_of result ≡ rank_counts n values.now weights.now shuffles.now desks.now }
{
    let mut zones: [u8; 64] = [0; 64];
    let kept = judging::judge_rank(n, values, weights, shuffles, desks, &mut zones)?;
    let lent = ShuffleRows {
        n,
        shuffles,
        desks,
        rows: desks.len(),
    };
    Ok(kept_zones::work_rank(&kept, &lent))
}
