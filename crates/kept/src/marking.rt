// Which zones are kept: a mark for each column that holds weight, and then each zone by its mark and its row.
ghost use Rattle.std.specs.Prelude.{◌≡◌, cond, ◌*◌, ◌≤◌, ◌<◌, ltb, length, get_or, take, drop};
ghost use Rattle.whole.specs.Table.{table};
ghost use Rattle.kept.specs.Kept.{keeps};
ghost use Rattle.kept.specs.Steps.{column_mark};

// The weights between n zones, a row of n for each zone.
#[derive(Clone, Copy)]
pub(super) struct Weights<'a> {
    pub(super) n: usize,
    pub(super) rows: &'a [u8],
    ghost few: { n ≤ 64 },
    ghost square: { length rows.now ≡ n * n },
}

impl Weights<'_> {
    // The weights in the row of zone i.
    pub(super) fn row(&self, i: usize) -> &[u8]
        requires { i < self.now.n }
        ensures { result.now ≡ take self.now.n (drop (i * self.now.n) self.now.rows.now) }
    {
        let first = i * self.n;
        let end = first + self.n;
        &self.rows[first..end]
    }

    // A mark for each zone whose column holds weight; 0 beyond the n zones.
    pub(super) fn columns(&self) -> [u8; 64]
        ensures { take self.now.n result ≡ table (column_mark self.now.n self.now.rows.now self.now.n) self.now.n }
    {
        let mut columns: [u8; 64] = [0; 64];
        let marks = &mut columns[..self.n];
        for i in 0..self.n {
            mark_row(self.row(i), marks);
        }
        columns
    }

    // Whether zone i is kept: its column is marked, or its row holds weight.
    pub(super) fn touches(&self, columns: &[u8; 64], i: usize) -> bool
        requires i_lt_n { i < self.now.n }
        requires marked { take self.now.n columns.now ≡ table (column_mark self.now.n self.now.rows.now self.now.n) self.now.n }
        ensures { result ≡ keeps self.now.n self.now.rows.now i }
    {
        columns[i] > 0 || judges::any_above(0, self.row(i))
    }
}

// Marks each zone whose column holds weight in the row, and leaves the other marks. A mark is a byte: the public list of `mark` has it so,
// and docs/PERFORMANCE.md says what marks of bool cost.
fn mark_row(row: &[u8], marks: &mut [u8])
    requires { length row.now ≡ length marks.old }
    ensures { marks.new
        ≡ table (λ j. cond (ltb 0 (get_or row.now j 0)) 1 (get_or marks.old j 0)) (length marks.old) }
{
    // by its place: a proof knows nothing of the marks that a zip would hand out to be written
    for (j, mark) in marks.iter_mut().enumerate() {
        *mark = if row[j] > 0 { 1 } else { *mark };
    }
}
