// The search through a list of shuffles: whether some row lacks a zone number.
ghost use Rattle.std.specs.Prelude.{◌≡◌, ◌/◌, ◌<◌, ◌≤◌, eqb, length, get_or};
ghost use Rattle.whole.specs.Order.{lacks};
ghost use Rattle.whole.specs.Search.{some};
ghost use Rattle.whole.specs.Table.{table, pair_at};
ghost use Rattle.shuffles.specs.Steps.{mark_of};

// Marks each number that the row names. There is a mark for each byte, so that no number has to be looked at before it is marked,
// and a mark is a byte, as docs/PERFORMANCE.md says what marks of bool cost.
fn mark(row: &[u8], named: &mut [u8; 256])
    requires { named.old ≡ table (λ k. 0) 256 }
    ensures { named.new
        ≡ table (λ k. mark_of (some (λ i. eqb (get_or row.now i 0) k) (length row.now))) 256 }
{
    for zone in row {
        named[usize::from(*zone)] = 1;
    }
}

// Whether the row lacks some zone number.
fn lacks_zone(row: &[u8]) -> bool
    requires { length row.now ≤ 64 }
    ensures { result ≡ lacks (λ i. get_or row.now i 0) (length row.now) }
{
    let mut named: [u8; 256] = [0; 256];
    mark(row, &mut named);
    named[..row.len()].contains(&0)
}

// Whether some row lacks some zone number.
pub(super) fn any_lacking(n: usize, shuffles: &[u8]) -> bool
    requires { (0 < n) × (n ≤ 64) }
    ensures { result ≡ some (λ r. lacks (pair_at shuffles.now n r) n) (length shuffles.now / n) }
{
    shuffles.chunks_exact(n).any(lacks_zone)
}
