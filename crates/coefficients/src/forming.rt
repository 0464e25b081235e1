// Coefficients from whole numbers, each by one division.
ghost use Rattle.std.specs.Prelude.{◌≡◌, ℕ, ◌<◌, length};
ghost use Rattle.whole.specs.Table.{table};
ghost use Rattle.nearest.specs.Answers.{nearest_rounded};
ghost use Rattle.account.specs.Classes.{row_at};
ghost use Rattle.coefficients.specs.Coefficients.{pair_of, local_figures, local_sides};
ghost use Rattle.coefficients.specs.declared.Coefficient.TheVariants.{Figure};
ghost use Rattle.coefficients.specs.Steps.{Ratio, Formable, FormableRows, nth_row, Numerators};

use crate::{Coefficient, Pair};
use account::ClassRow;
use nearest::{Rounded, Side};
use std::array;

// The nearest float to p over q, which part 2 does not refuse.
pub(super) fn ratio(p: i64, q: i64) -> Rounded
    requires { Ratio p q }
    ensures { result ≡ nearest_rounded p q }
{
    nearest::nearest(p, q).unwrap()
}

// The coefficient that a float is.
impl From<Rounded> for Coefficient {
    ghost from_gives = { λ x coefficient. coefficient ≡ Figure x.float x.side };

    fn from(x: Rounded) -> Coefficient {
        Coefficient::Figure(x.float, x.side)
    }
}

// Moran and Geary of the sums of a job or of a class. n and the spread stay two parameters: `Formable` is of them and a row, and a
// struct would need one such fact for one row and another for nine.
pub(super) fn pair(n: usize, spread: i64, row: ClassRow) -> Pair
    requires { Formable n spread row }
    ensures { result ≡ pair_of n spread row }
{
    let weight = row.weight;
    let cross = row.cross;
    let squares = row.squares;
    if weight == 0 {
        return Pair {
            moran: Coefficient::Weightless,
            geary: Coefficient::Weightless,
        };
    }
    let moran = ratio(cross, weight * spread);
    let ordered = ((n - 1) * n) as i64; // no From leads here from a usize; TryFrom and an unwrap is no plainer
    let twice = 2 * weight;
    let geary = ratio(ordered * squares, twice * spread);
    Pair {
        moran: Coefficient::from(moran),
        geary: Coefficient::from(geary),
    }
}

// The pairs of nine rows.
fn row_pairs(n: usize, spread: i64, rows: &[ClassRow; 9]) -> [Pair; 9]
    requires { (k : ℕ) → k < 9 → Formable n spread (nth_row rows.now k) }
    ensures { result ≡ table (λ k. pair_of n spread (nth_row rows.now k)) 9 }
{
    array::from_fn(|k| pair(n, spread, rows[k]))
}

// The pairs of the nine classes.
pub(super) fn class_pairs(n: usize, spread: i64, rows: &[i64; 27]) -> [Pair; 9]
    requires { FormableRows n spread rows.now }
    ensures { result ≡ table (λ k. pair_of n spread (row_at rows.now k)) 9 }
{
    row_pairs(n, spread, &ClassRow::all(rows))
}

// The local Moran of each local numerator of a list, by its bits, and its side.
pub(super) fn put_figures(spread: i64, numerators: &[i64], figures: &mut [u64], sides: &mut [Side])
    requires numerators { Numerators spread numerators.now }
    requires figures_len { length figures.old ≡ length numerators.now }
    requires sides_len { length sides.old ≡ length numerators.now }
    ensures figures_after { figures.new ≡ local_figures spread numerators.now }
    ensures sides_after { sides.new ≡ local_sides spread numerators.now }
{
    // of a zip over iter_mut no proof knows what it wrote, so the numerators go by the index
    for (i, figure) in figures.iter_mut().enumerate() {
        let local = ratio(numerators[i], spread);
        *figure = local.float.to_bits();
        sides[i] = local.side;
    }
}
