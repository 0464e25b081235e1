// The job image: what it means is in specs/, and that reading and writing it go back and forth in proofs/. Its code is what is judged
// of a job where it is read or written: the counts of its sections, and the lengths of the six buffers.
#![tactic(auto)]

ghost use Rattle.std.specs.Prelude.{◌≡◌, [], ◌∷◌, ltb};
ghost use Rattle.whole.specs.Rules.{first_broken, misfits};
ghost use Rattle.refusals.specs.Refusals.{number_of};
ghost use Rattle.image.specs.Image.{zone_count_rule, none_or_all_rule, join_count_rule, band_count_rule, shuffle_count_rule};

use refusals::Refusal;

// The counts that the writer is lent.
#[derive(Clone, Copy)]
pub struct Given {
    pub values: usize,
    pub categories: usize,
    pub places: usize,
    pub bands: usize,
    pub shuffles: usize,
}

// The six lists of a job, as they are lent: the first entries of each are used, as many as the counts say.
#[derive(Clone, Copy)]
pub struct Lists<'a> {
    pub values: &'a [i32],
    pub categories: &'a [u8],
    pub weights: &'a [u8],
    pub places: &'a [i32],
    pub bands: &'a [u32],
    pub shuffles: &'a [u8],
}

// 1: a count of values outside 2 to 64.
// It only passes on, and stays, as public functions do by a rule of the project: it promises the image's own rule.
pub fn judge_zone_count(n: usize) -> Result<(), Refusal>
    ensures { number_of result ≡ first_broken (zone_count_rule n ∷ []) }
{
    judges::judge_zones(n)
}

// 15: categories or places for some of n zones only.
pub fn judge_none_or_all(n: usize, k: usize) -> Result<(), Refusal>
    ensures { number_of result ≡ first_broken (none_or_all_rule n k ∷ []) }
{
    if k != 0 && k != n {
        return Err(Refusal::Count);
    }
    Ok(())
}

// 15: more items of a section than there can be.
fn judge_most(most: usize, k: usize) -> Result<(), Refusal>
    ensures { number_of result ≡ first_broken ((ltb most k, 15) ∷ []) }
{
    if k > most {
        return Err(Refusal::Count);
    }
    Ok(())
}

// 15: more joins than there can be.
pub fn judge_join_count(k: usize) -> Result<(), Refusal>
    ensures { number_of result ≡ first_broken (join_count_rule k ∷ []) }
{
    judge_most(4032, k)
}

// 12: more than 8 bands, or bands without places.
pub fn judge_band_count(places: usize, k: usize) -> Result<(), Refusal>
    ensures { number_of result ≡ first_broken (band_count_rule places k ∷ []) }
{
    if k > 8 || (k > 0 && places == 0) {
        return Err(Refusal::Bands);
    }
    Ok(())
}

// 15: more than 499 shuffles.
pub fn judge_shuffle_count(k: usize) -> Result<(), Refusal>
    ensures { number_of result ≡ first_broken (shuffle_count_rule k ∷ []) }
{
    judge_most(499, k)
}

// 2: a buffer not of its exact length. Six lengths, and no struct of lists: the reader is lent them to be written and the writer to be
// read, and either would make one for this call.
pub fn judge_lengths(
    values: usize,
    categories: usize,
    weights: usize,
    places: usize,
    bands: usize,
    shuffles: usize,
) -> Result<(), Refusal>
    ensures { number_of result ≡ first_broken
        ((misfits ((values, 64) ∷ (categories, 64) ∷ (weights, 4096) ∷ (places, 128) ∷ (bands, 8) ∷ (shuffles, 31936) ∷ []), 2) ∷ []) }
{
    if [values, categories, weights, places, bands, shuffles] != [64, 64, 4096, 128, 8, 31936] {
        return Err(Refusal::Length);
    }
    Ok(())
}
