// The join table's work on lists that were judged and accepted.
ghost use Rattle.std.specs.Prelude.{◌≡◌, false, ◌+◌, ◌*◌, ◌≤◌, ◌<◌, pos, length, replicate};
ghost use Rattle.whole.specs.Search.{any_above};
ghost use Rattle.kept.specs.Returned.{reduced};
ghost use Rattle.joins.specs.Joins.{join_table};
ghost use Rattle.joins.specs.Steps.{Counted};

// The categories of n zones, and a row of n weights for each.
// n stands beside the lists, as every clause says by it what is counted: by the length of one of them each would be longer.
#[derive(Clone, Copy)]
pub(super) struct Zones<'a> {
    pub(super) n: usize,
    pub(super) categories: &'a [u8],
    pub(super) weights: &'a [u8],
    ghost few: { n ≤ 64 },
    ghost categories_fit: { length categories.now ≡ n },
    ghost weights_fit: { length weights.now ≡ n * n },
    ghost light: { any_above 9 weights.now ≡ false },
    ghost low: { any_above 7 categories.now ≡ false },
}

impl Zones<'_> {
    // Adds each weight from zone i to the entry of its two zones' categories.
    fn count_row(&self, i: usize, entries: &mut [i64])
        requires i_lt_n { i < self.now.n }
        requires before { Counted self.now.n self.now.categories.now self.now.weights.now entries.old (i * self.now.n) }
        ensures { Counted self.now.n self.now.categories.now self.now.weights.now entries.new ((i + 1) * self.now.n) }
    {
        // cut out by its place: `chunks_exact(self.n).nth(i)` would be an Option that is never None, and no plainer
        let first = i * self.n;
        let row = &self.weights[first..first + self.n];
        let from = usize::from(self.categories[i]);
        for (j, weight) in row.iter().enumerate() {
            let to = usize::from(self.categories[j]);
            // of one flat list, as the C interface lends the table
            let entry = from * 8 + to;
            entries[entry] += i64::from(*weight);
        }
    }

    // Adds each weight to the entry of its two zones' categories, one row after the other.
    pub(super) fn count_joins(&self, entries: &mut [i64])
        requires { entries.old ≡ replicate 64 (pos 0) }
        ensures { entries.new ≡ join_table self.now.n self.now.categories.now self.now.weights.now }
    {
        for i in 0..self.n {
            self.count_row(i, entries);
        }
    }

    // The same by the weights that count, where some value is not returned: a function of its own, as the common case need not clear room for
    // them.
    pub(super) fn count_returned(&self, values: &[i32], entries: &mut [i64])
        requires two { 2 ≤ self.now.n }
        requires values_len { length values.now ≡ self.now.n }
        requires zeros { entries.old ≡ replicate 64 (pos 0) }
        ensures { entries.new
            ≡ join_table self.now.n self.now.categories.now (reduced self.now.n values.now self.now.weights.now) }
    {
        let Zones {
            n,
            categories,
            weights,
        } = *self;
        let mut space: [u8; 4096] = rooms::room();
        let counting = &mut space[..n * n];
        kept::reduce(n, values, weights, counting).unwrap();
        let zones = Zones {
            n,
            categories,
            weights: counting,
        };
        zones.count_joins(entries);
    }
}
