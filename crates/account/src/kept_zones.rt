// The work on a job that was judged and accepted: its zones kept are worked as zones all of which count. Where every zone is kept that is
// the job as it was lent. Else their lists are gathered first, and what belongs to a zone is put back at it, in functions of their own, so that
// the common case clears no room. Each function tells the two by one test, and no function does it for all, since what is worked on the
// gathered lists differs.
ghost use Rattle.std.specs.Prelude.{◌≡◌, ◌*◌, length};
ghost use Rattle.whole.specs.Table.{table};
ghost use Rattle.account.specs.Answers.{listed, job_figures, job_locals};
ghost use Rattle.account.specs.Classes.{class_sums, class_locals_of};
ghost use Rattle.account.specs.Rank.{twelve};
ghost use Rattle.account.specs.Steps.{Classed, gathered, gathered_pairs, place_in, ranked};

use crate::keeping::KeptLists;
use crate::lists::{ClassLists, JobLists, ShuffleRows};
use crate::{Counts, Sums, classes, keeping, ranking, working};

// Room for what is gathered of any job.
#[derive(Drop)]
struct Room {
    values: [i32; 64],
    weights: [u8; 4096],
    places: [u8; 64],
}

impl Room {
    fn new() -> Room {
        Room {
            values: [0; 64],
            weights: rooms::room(),
            places: [0; 64],
        }
    }
}

// The job of the zones kept, and the place of each zone of the whole job among them.
#[derive(Clone, Copy)]
struct Gathered<'a> {
    job: JobLists<'a>,
    places: &'a [u8],
}

// Gathers the job of the zones kept into room that is lent.
fn gather<'a>(kept: &KeptLists, room: &'a mut Room) -> Gathered<'a>
    ensures n { result.job.n ≡ length kept.now.zones.now }
    ensures values { result.job.values.now ≡ gathered kept.now.job.values.now kept.now.zones.now }
    ensures weights { result.job.weights.now
        ≡ gathered_pairs kept.now.job.n kept.now.job.weights.now kept.now.zones.now }
    ensures places { result.places.now ≡ table (place_in kept.now.zones.now) kept.now.job.n }
{
    let KeptLists { job, zones } = *kept;
    let Room {
        values,
        weights,
        places,
    } = room;
    let many = zones.len();
    let pairs = many * many;
    let kept_values = &mut values[..many];
    kept.gather(job.values, kept_values);
    let kept_weights = &mut weights[..pairs];
    kept.gather_pairs(job.weights, kept_weights);
    let places = &mut places[..job.n];
    kept.find_places(places);
    Gathered {
        job: JobLists {
            n: many,
            values: kept_values,
            weights: kept_weights,
        },
        places,
    }
}

// The local numerators of a job some of whose zones are left out. That a list has room for each zone is a clause here, below and of what is
// called here: n is the job's, and no type can say it of a list that C lends.
fn gathered_locals(kept: &KeptLists, locals: &mut [i64])
    requires { length locals.old ≡ kept.now.job.n }
    ensures { locals.new
        ≡ job_locals kept.now.job.n kept.now.job.values.now kept.now.job.weights.now }
{
    let mut room = Room::new();
    let gathered = gather(kept, &mut room);
    let job = gathered.job;
    let mut local_space: [i64; 64] = [0; 64];
    let kept_locals = &mut local_space[..job.n];
    working::zone_locals(&job.summed(), job.weights, kept_locals);
    keeping::put_back(gathered.places, kept_locals, locals);
}

// The local numerators of a job.
pub(super) fn put_locals(kept: &KeptLists, locals: &mut [i64])
    requires { length locals.old ≡ kept.now.job.n }
    ensures { locals.new
        ≡ job_locals kept.now.job.n kept.now.job.values.now kept.now.job.weights.now }
{
    let KeptLists { job, zones } = *kept;
    if zones.len() == job.n {
        let whole = kept.whole();
        working::zone_locals(&whole.summed(), whole.weights, locals);
        return;
    }
    gathered_locals(kept, locals);
}

// The sums of a job some of whose zones are left out.
fn gathered_sums(kept: &KeptLists, locals: &mut [i64]) -> Sums
    requires { length locals.old ≡ kept.now.job.n }
    ensures result_value { listed result
        ≡ job_figures kept.now.job.n kept.now.job.values.now kept.now.job.weights.now }
    ensures locals_after { locals.new
        ≡ job_locals kept.now.job.n kept.now.job.values.now kept.now.job.weights.now }
{
    let missing = kept::count_missing(kept.job.values);
    let mut room = Room::new();
    let gathered = gather(kept, &mut room);
    let mut local_space: [i64; 64] = [0; 64];
    let kept_locals = &mut local_space[..gathered.job.n];
    let sums = working::zone_sums(&gathered.job, missing, kept_locals);
    keeping::put_back(gathered.places, kept_locals, locals);
    sums
}

// The sums of a job, with its local numerators in `locals`.
pub(super) fn job_sums(kept: &KeptLists, locals: &mut [i64]) -> Sums
    requires { length locals.old ≡ kept.now.job.n }
    ensures result_value { listed result
        ≡ job_figures kept.now.job.n kept.now.job.values.now kept.now.job.weights.now }
    ensures locals_after { locals.new
        ≡ job_locals kept.now.job.n kept.now.job.values.now kept.now.job.weights.now }
{
    let KeptLists { job, zones } = *kept;
    if zones.len() == job.n {
        return working::zone_sums(&kept.whole(), 0, locals);
    }
    gathered_sums(kept, locals)
}

// The class account of a job some of whose zones are left out.
fn gathered_classes(
    kept: &KeptLists,
    classes: &[u8],
    rows: &mut [i64; 27],
    class_locals: &mut [i64],
    locals: &mut [i64],
) -> Sums
    requires classed { Classed classes.now kept.now.job.n }
    requires class_locals_len { length class_locals.old ≡ 9 * kept.now.job.n }
    requires locals_len { length locals.old ≡ kept.now.job.n }
    ensures result_value { listed result
        ≡ job_figures kept.now.job.n kept.now.job.values.now kept.now.job.weights.now }
    ensures rows_after { rows.new
        ≡ class_sums kept.now.job.n kept.now.job.values.now kept.now.job.weights.now classes.now }
    ensures class_locals_after { class_locals.new
        ≡ class_locals_of kept.now.job.n kept.now.job.values.now kept.now.job.weights.now classes.now }
    ensures locals_after { locals.new
        ≡ job_locals kept.now.job.n kept.now.job.values.now kept.now.job.weights.now }
{
    let missing = kept::count_missing(kept.job.values);
    let mut room = Room::new();
    let gathered = gather(kept, &mut room);
    let many = gathered.job.n;
    let pairs = many * many;
    let mut class_space: [u8; 4096] = rooms::room();
    let kept_classes = &mut class_space[..pairs];
    kept.gather_pairs(classes, kept_classes);
    let nine = 9 * many;
    let mut nine_space: [i64; 576] = [0; 576];
    let kept_nine = &mut nine_space[..nine];
    let mut local_space: [i64; 64] = [0; 64];
    let kept_locals = &mut local_space[..many];
    let lists = ClassLists {
        job: gathered.job,
        classes: kept_classes,
    };
    let sums = classes::zone_classes(&lists, missing, rows, kept_nine, kept_locals);
    keeping::put_back_rows(gathered.places, many, kept_nine, class_locals);
    keeping::put_back(gathered.places, kept_locals, locals);
    sums
}

// The class account of a job.
pub(super) fn work_classes<'a>(
    kept: &KeptLists<'a>,
    classes: &'a [u8],
    rows: &mut [i64; 27],
    class_locals: &mut [i64],
    locals: &mut [i64],
) -> Sums
    requires classed { Classed classes.now kept.now.job.n }
    requires class_locals_len { length class_locals.old ≡ 9 * kept.now.job.n }
    requires locals_len { length locals.old ≡ kept.now.job.n }
    ensures result_value { listed result
        ≡ job_figures kept.now.job.n kept.now.job.values.now kept.now.job.weights.now }
    ensures rows_after { rows.new
        ≡ class_sums kept.now.job.n kept.now.job.values.now kept.now.job.weights.now classes.now }
    ensures class_locals_after { class_locals.new
        ≡ class_locals_of kept.now.job.n kept.now.job.values.now kept.now.job.weights.now classes.now }
    ensures locals_after { locals.new
        ≡ job_locals kept.now.job.n kept.now.job.values.now kept.now.job.weights.now }
{
    let KeptLists { job, zones } = *kept;
    if zones.len() == job.n {
        let lists = ClassLists {
            job: kept.whole(),
            classes,
        };
        return classes::zone_classes(&lists, 0, rows, class_locals, locals);
    }
    gathered_classes(kept, classes, rows, class_locals, locals)
}

// The rank of a job some of whose zones are left out, by desk.
fn gathered_rank(kept: &KeptLists, shuffles: &ShuffleRows) -> [Counts; 4]
    requires { shuffles.now.n ≡ kept.now.job.n }
    ensures { twelve result
        ≡ ranked kept.now.job.n kept.now.job.values.now kept.now.job.weights.now shuffles.now.rows shuffles.now.shuffles.now
        shuffles.now.desks.now }
{
    let mut room = Room::new();
    let gathered = gather(kept, &mut room);
    let many = gathered.job.n;
    let rows = shuffles.rows;
    let numbers = rows * many;
    let mut shuffle_space: [u8; 31936] = rooms::room();
    let kept_shuffles = &mut shuffle_space[..numbers];
    keeping::keep_rows(shuffles, gathered.places, many, kept_shuffles);
    let kept_rows = ShuffleRows {
        n: many,
        shuffles: kept_shuffles,
        desks: shuffles.desks,
        rows,
    };
    ranking::zone_rank(&gathered.job, &kept_rows)
}

// The rank of a job, by desk.
pub(super) fn work_rank(kept: &KeptLists, shuffles: &ShuffleRows) -> [Counts; 4]
    requires { shuffles.now.n ≡ kept.now.job.n }
    ensures { twelve result
        ≡ ranked kept.now.job.n kept.now.job.values.now kept.now.job.weights.now shuffles.now.rows shuffles.now.shuffles.now
        shuffles.now.desks.now }
{
    let KeptLists { job, zones } = *kept;
    if zones.len() == job.n {
        return ranking::zone_rank(&kept.whole(), shuffles);
    }
    gathered_rank(kept, shuffles)
}
