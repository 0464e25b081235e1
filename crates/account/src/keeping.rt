// The job of the zones kept: its lists are gathered, and what is worked of a zone is put back at it.
ghost use Rattle.std.specs.Prelude.{◌≡◌, ◌*◌, ◌+◌, ◌≤◌, ◌<◌, ltb, length, get_or, slice_get, ℕ};
ghost use Rattle.whole.specs.Search.{count};
ghost use Rattle.whole.specs.Table.{table, table_rows, at, pair_at};
ghost use Rattle.kept.specs.Kept.{kept_zones};
ghost use Rattle.kept.specs.Returned.{reduced};
ghost use Rattle.account.specs.Steps.{Zones, gathered_pairs, place_in, at_place, placed_number};

use crate::lists::{self, JobLists, LentLists, ShuffleRow, ShuffleRows};

// The lists of a job with the zones that are kept of it, rising, by the weights that count. Weights between zones kept are those lent.
#[derive(Clone, Copy)]
pub(super) struct KeptLists<'a> {
    pub(super) job: LentLists<'a>,
    pub(super) zones: &'a [u8],
    ghost kept: { zones.now ≡ kept_zones job.n (reduced job.n job.values.now job.weights.now) },
    ghost rising: { Zones zones.now job.n },
}

// What a list holds at so many numbers, one after another.
pub(super) fn pick<T: Copy>(list: &[T], numbers: &[u8], out: &mut [T])
    requires below { (k : ℕ) → k < length numbers.now → get_or numbers.now k 0 < length list.now }
    requires out_len { length out.old ≡ length numbers.now }
    ensures { (k : ℕ) → k < length numbers.now → slice_get out.new k ≡ slice_get list.now (get_or numbers.now k 0) }
{
    // by place: of a zip over iter_mut no proof knows what it wrote
    for (k, number) in numbers.iter().enumerate() {
        let number = usize::from(*number);
        out[k] = list[number];
    }
}

impl<'a> KeptLists<'a> {
    // The job as it was lent, where every zone is kept: each value is returned then.
    pub(super) fn whole(&self) -> JobLists<'a>
        requires { length self.now.zones.now ≡ self.now.job.n }
        ensures n { result.n ≡ self.now.job.n }
        ensures values { result.values.now ≡ self.now.job.values.now }
        ensures weights { result.weights.now ≡ self.now.job.weights.now }
    {
        let LentLists { n, values, weights } = self.job;
        JobLists { n, values, weights }
    }

    // What a list that has an entry for each zone holds of the zones kept.
    pub(super) fn gather<T: Copy>(&self, list: &[T], out: &mut [T])
        requires list_len { length list.now ≡ self.now.job.n }
        requires out_len { length out.old ≡ length self.now.zones.now }
        ensures { (k : ℕ) → k < length self.now.zones.now → slice_get out.new k
            ≡ slice_get list.now (get_or self.now.zones.now k 0) }
    {
        pick(list, self.zones, out);
    }

    // What a list that has a row for each zone holds of the pairs of the zones kept.
    pub(super) fn gather_pairs(&self, pairs: &[u8], out: &mut [u8])
        requires pairs_len { length pairs.now ≡ self.now.job.n * self.now.job.n }
        requires out_len { length out.old ≡ length self.now.zones.now * length self.now.zones.now }
        ensures { out.new ≡ gathered_pairs self.now.job.n pairs.now self.now.zones.now }
    {
        let n = self.job.n;
        let many = self.zones.len();
        for (k, zone) in self.zones.iter().enumerate() {
            let row = lists::row(pairs, n, usize::from(*zone));
            let first = k * many;
            self.gather(row, &mut out[first..first + many]);
        }
    }

    // The place of each zone among those kept; one that is left out has their number.
    pub(super) fn find_places(&self, places: &mut [u8])
        requires { length places.old ≡ self.now.job.n }
        ensures { places.new ≡ table (place_in self.now.zones.now) self.now.job.n }
    {
        // The number of zones kept stands for no place: `get` finds nothing there, and an Option for each zone would be matched to the same
        // end. no From leads here from a usize, twice; TryFrom and an unwrap is no plainer, and a place is at most 64
        places.fill(self.zones.len() as u8);
        for (k, zone) in self.zones.iter().enumerate() {
            places[usize::from(*zone)] = k as u8;
        }
    }
}

// Each zone's number, by its place; 0 where it has none.
pub(super) fn put_back(places: &[u8], numbers: &[i64], out: &mut [i64])
    requires { length out.old ≡ length places.now }
    ensures { out.new
        ≡ table (at_place places.now (length numbers.now) (at numbers.now)) (length places.now) }
{
    // by place: of a zip over iter_mut no proof knows what it wrote
    for (i, number) in out.iter_mut().enumerate() {
        let place = usize::from(places[i]);
        *number = numbers.get(place).copied().unwrap_or(0);
    }
}

// The same of nine rows of numbers, class by class.
pub(super) fn put_back_rows(places: &[u8], many: usize, numbers: &[i64], out: &mut [i64])
    requires places_len_bound { length places.now ≤ 64 }
    requires many_bound { many ≤ 64 }
    requires numbers_len { length numbers.now ≡ 9 * many }
    requires out_len { length out.old ≡ 9 * length places.now }
    ensures { out.new
        ≡ table_rows (λ k. at_place places.now many (λ a. at numbers.now (k * many + a))) 9
        (length places.now) }
{
    let n = places.len();
    for k in 0..9 {
        let from = k * many;
        let first = k * n;
        put_back(
            places,
            &numbers[from..from + many],
            &mut out[first..first + n],
        );
    }
}

// The numbers of a shuffle that have a place below the length of `out`, in order, each by its place.
pub(super) fn keep_row(row: &ShuffleRow, places: &[u8], out: &mut [u8])
    requires places_len { length places.now ≡ length row.now.zones.now }
    requires n_value { count (λ i. ltb (get_or places.now i 0) (length out.old)) (length row.now.zones.now) ≡ length out.old }
    ensures { out.new
        ≡ table (placed_number places.now (length out.old) (length row.now.zones.now) (λ i. get_or row.now.zones.now i 0))
        (length out.old) }
{
    // counts the numbers that have a place, and not the turns: a chain of map, filter and enumerate has their number too, and is no
    // plainer, as long as this loop and with two closures
    let mut k: usize = 0;
    for zone in row.zones {
        let place = places[usize::from(*zone)];
        if usize::from(place) < out.len() {
            out[k] = place;
            k += 1;
        }
    }
}

// The same of each of so many shuffles.
pub(super) fn keep_rows(shuffles: &ShuffleRows, places: &[u8], many: usize, out: &mut [u8])
    requires places_len { length places.now ≡ shuffles.now.n }
    requires n_value { count (λ i. ltb (get_or places.now i 0) many) shuffles.now.n ≡ many }
    requires out_len { length out.old ≡ shuffles.now.rows * many }
    ensures { out.new
        ≡ table_rows (λ r. placed_number places.now many shuffles.now.n (pair_at shuffles.now.shuffles.now shuffles.now.n r))
        shuffles.now.rows many }
{
    // by place: of a chunk that chunks_exact_mut lends no proof knows what was written
    for r in 0..shuffles.rows {
        let row = shuffles.shuffle(r);
        let first = r * many;
        keep_row(&row, places, &mut out[first..first + many]);
    }
}
