// What the calls answer, into lent lists. Each function asks for its list's length, which is judged with the others where the call begins:
// an array would be unwrapped at each call, and is no plainer. That a figure is no NaN and that at most 64 zones are kept is asked by each
// function: Pair and Sums are public, and a ghost field would ask it of all who make one.
ghost use Rattle.std.specs.Prelude.{◌≡◌, [], ◌∷◌, ◌+◌, ◌*◌, ◌≤◌, ◌<◌, length, get_or};
ghost use Rattle.whole.specs.Table.{table};
ghost use Rattle.account.specs.Answers.{listed};
ghost use Rattle.account.specs.Rank.{twelve};
ghost use Rattle.reader.specs.Answers.{six};
ghost use Rattle.coefficients.specs.FloatReport.{no_pair};
ghost use Rattle.coefficients.specs.Steps.{Readable, ReadablePair, ReadablePairs};
ghost use Rattle.exports.specs.Floats.{side_numbers, bits_put, side_put, pairs_over};
ghost use Rattle.exports.specs.Images.{given_by};
ghost use Rattle.exports.specs.Steps.{put_figure, tells};

use account::{Counts, Sums};
use coefficients::{Coefficient, Pair};
use image::Given;
use nearest::Side;

// S, M, W, P, G, the number of zones kept and that of values not returned.
pub(super) fn put_sums(account: Sums, sums: &mut [i64])
    requires kept_bound { account.kept ≤ 64 }
    requires missing_bound { account.missing ≤ 64 }
    requires sums_len { length sums.old ≡ 7 }
    ensures { sums.new ≡ listed account }
{
    // no From leads here from a usize; TryFrom and an unwrap is no plainer
    let kept = account.kept as i64;
    let missing = account.missing as i64;
    sums.copy_from_slice(&[
        account.total,
        account.spread,
        account.weight,
        account.cross,
        account.squares,
        kept,
        missing,
    ]);
}

// Less, equal, greater of desk 0, then of desk 1, of desk 2, of desk 3.
pub(super) fn put_ranks(ranks: [Counts; 4], counts: &mut [u64])
    requires { length counts.old ≡ 12 }
    ensures { counts.new ≡ twelve ranks }
{
    let [zero, one, two, three] = ranks;
    // no From leads here from a usize; TryFrom and an unwrap is no plainer
    counts.copy_from_slice(&[
        zero.less as u64,
        zero.equal as u64,
        zero.greater as u64,
        one.less as u64,
        one.equal as u64,
        one.greater as u64,
        two.less as u64,
        two.equal as u64,
        two.greater as u64,
        three.less as u64,
        three.equal as u64,
        three.greater as u64,
    ]);
}

// The numbers of values, categories, joins, places, bands and shuffles.
pub(super) fn put_counts(read: reader::Counts, counts: &mut [u64])
    requires { length counts.old ≡ 6 }
    ensures { counts.new ≡ six read }
{
    // no From leads here from a usize; TryFrom and an unwrap is no plainer
    counts.copy_from_slice(&[
        read.values as u64,
        read.categories as u64,
        read.joins as u64,
        read.places as u64,
        read.bands as u64,
        read.shuffles as u64,
    ]);
}

// How long an image or a text is.
pub(super) fn put_length(bytes: usize, filled: &mut [u64])
    requires { length filled.old ≡ 1 }
    ensures { filled.new ≡ bytes ∷ [] }
{
    // no From leads here from a usize; TryFrom and an unwrap is no plainer
    filled[0] = bytes as u64;
}

// The five counts that the writer is given.
pub(super) fn given(counts: &[u64]) -> Given
    requires { length counts.now ≡ 5 }
    ensures { result ≡ given_by counts.now }
{
    // no From leads from here to a usize; TryFrom and an unwrap is no plainer
    Given {
        values: counts[0] as usize,
        categories: counts[1] as usize,
        places: counts[2] as usize,
        bands: counts[3] as usize,
        shuffles: counts[4] as usize,
    }
}

// The bits of a coefficient and the number of its side, each into its place, which is left as it was where there is none.
fn put_coefficient(figures: &mut [u64], sides: &mut [u8], place: usize, coefficient: Coefficient)
    requires place_in_bounds { place < length figures.old }
    requires side_in_bounds { place < length sides.old }
    requires readable { Readable coefficient }
    ensures figures { figures.new ≡ put_figure bits_put figures.old place coefficient }
    ensures sides { sides.new ≡ put_figure side_put sides.old place coefficient }
{
    if let Coefficient::Figure(x, side) = coefficient {
        figures[place] = x.to_bits();
        sides[place] = nearest::side_number(side);
    }
}

// Moran and Geary of pair k. C lends the pairs as flat lists; `as_chunks_mut` promises nothing of what it ends as.
pub(super) fn put_pair(figures: &mut [u64], sides: &mut [u8], k: usize, pair: Pair)
    requires k_bound { k < 9 }
    requires k_in_bounds { k * 2 + 1 < length figures.old }
    requires k_side_in_bounds { k * 2 + 1 < length sides.old }
    requires readable_pair { ReadablePair pair }
    ensures figures { figures.new
        ≡ put_figure bits_put (put_figure bits_put figures.old (k * 2) pair.moran) (k * 2 + 1) pair.geary }
    ensures sides { sides.new
        ≡ put_figure side_put (put_figure side_put sides.old (k * 2) pair.moran) (k * 2 + 1) pair.geary }
{
    let moran = pair.moran;
    let geary = pair.geary;
    let place = k * 2;
    put_coefficient(figures, sides, place, moran);
    put_coefficient(figures, sides, place + 1, geary);
}

// The pairs of the nine classes.
pub(super) fn put_pairs(figures: &mut [u64], sides: &mut [u8], pairs: &[Pair; 9])
    requires figures_len { length figures.old ≡ 18 }
    requires sides_len { length sides.old ≡ 18 }
    requires readable_pairs { ReadablePairs pairs.now }
    ensures figures { figures.new ≡ pairs_over bits_put 9 (λ k. get_or pairs.now k no_pair) figures.old }
    ensures sides { sides.new ≡ pairs_over side_put 9 (λ k. get_or pairs.now k no_pair) sides.old }
{
    for (k, pair) in pairs.iter().enumerate() {
        put_pair(figures, sides, k, *pair);
    }
}

// The numbers of sides. C lends bytes, of which not each is a side.
pub(super) fn put_sides(numbers: &mut [u8], sides: &[Side])
    requires { length numbers.old ≡ length sides.now }
    ensures { numbers.new ≡ side_numbers sides.now }
{
    for (i, number) in numbers.iter_mut().enumerate() {
        *number = nearest::side_number(sides[i]);
    }
}

// 1 where a pair has its figures, else 0.
fn having(pair: Pair) -> u8
    ensures { result ≡ tells pair.moran }
{
    match pair.moran {
        Coefficient::Figure(_, _) => 1,
        Coefficient::Weightless => 0,
    }
}

// Which of the nine classes have a pair.
pub(super) fn put_having(has: &mut [u8], pairs: &[Pair; 9])
    requires { length has.old ≡ 9 }
    ensures { has.new ≡ table (λ k. tells (get_or pairs.now k no_pair).moran) 9 }
{
    for (k, one) in has.iter_mut().enumerate() {
        *one = having(pairs[k]);
    }
}
