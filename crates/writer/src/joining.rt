// The weights of a job and the joins that they are: their judge, how many there are, and their bytes.
ghost use Rattle.std.specs.Prelude.{◌≡◌, ◌*◌, ◌≤◌, ◌<◌, length, ltb};
ghost use Rattle.std.specs.List.{count_by};
ghost use Rattle.whole.specs.Rules.{first_broken, in_turn};
ghost use Rattle.whole.specs.Table.{each};
ghost use Rattle.refusals.specs.Refusals.{number_of};
ghost use Rattle.image.specs.Joins.{joins_of, weight_rules};
ghost use Rattle.image.specs.Image.{join_bytes};
ghost use Rattle.writer.specs.Steps.{Room, Puts, bytes_of, row_bytes};

use crate::lists::Table;
use crate::putting::Out;
use refusals::Refusal;

// The first number of a table of weights, row by row: 5 before 4 at each weight. The p-th weight is that of zone p / n to zone p % n: one
// walk, as the rules are listed.
pub(super) fn judge_weights(table: &Table) -> Result<(), Refusal>
    ensures { number_of result
        ≡ first_broken (in_turn (weight_rules table.now.n table.now.weights.now) (table.now.n * table.now.n)) }
{
    let Table { n, weights } = *table;
    for (p, weight) in weights.iter().enumerate() {
        if *weight > 0 && p / n == p % n {
            return Err(Refusal::Diagonal);
        }
        if *weight > 9 {
            return Err(Refusal::Weight);
        }
    }
    Ok(())
}

// How many of up to 64 × 64 weights are above 0. By adding: a `count` of what a filter lets by goes weight by weight, and a write without
// shuffles took a third longer (docs/DESIGN-PASS.md).
fn weighty(weights: &[u8]) -> u32
    requires { length weights.now ≤ 4096 }
    ensures { result ≡ count_by (λ w. ltb 0 w) weights.now }
{
    weights.iter().map(|weight| u32::from(*weight > 0)).sum()
}

// How many joins a table has: one for each weight above 0.
pub(super) fn count_joins(table: &Table) -> usize
    ensures { result ≡ length (joins_of table.now.n table.now.weights.now) }
{
    weighty(table.weights) as usize // no From leads here from a u32
}

// The bytes of the join of a weight above 0.
fn put_join(out: &mut Out, from: usize, to: usize, weight: u8)
    requires room { Room out.old (bytes_of from to weight) }
    requires from_bound { from < 256 }
    requires to_bound { to < 256 }
    ensures { Puts out.old (bytes_of from to weight) out.new }
{
    if weight > 0 {
        // No From leads here from a usize; TryFrom and an unwrap is no plainer.
        out.put_bytes(&[from as u8, to as u8, weight]);
    }
}

// The bytes of the joins of a row of the table: those from one zone.
fn put_row(out: &mut Out, from: usize, row: &[u8])
    requires room { Room out.old (row_bytes from row.now) }
    requires from_bound { from < 256 }
    requires row_bound { length row.now ≤ 256 }
    ensures { Puts out.old (row_bytes from row.now) out.new }
{
    for (to, weight) in row.iter().enumerate() {
        put_join(out, from, to, *weight);
    }
}

// The bytes of the joins of a table, row by row.
pub(super) fn put_joins(out: &mut Out, table: &Table)
    requires { Room out.old (each join_bytes (joins_of table.now.n table.now.weights.now)) }
    ensures { Puts out.old (each join_bytes (joins_of table.now.n table.now.weights.now)) out.new }
{
    let Table { n, weights } = *table;
    // cut by place: `chunks_exact` is no plainer, as it must be shown that n is above 0 and that nothing is left over
    for from in 0..n {
        put_row(out, from, &weights[from * n..from * n + n]);
    }
}
