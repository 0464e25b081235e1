// What is made from the places of zones: the Gabriel network, and the classes of pairs by bands of squared distance.
#![tactic(auto)]

mod banding;
mod distances;
mod joining;
mod judging;

ghost use Rattle.std.specs.Prelude.{◌≡◌, length};
ghost use Rattle.refusals.specs.Refusals.{number_of};
ghost use Rattle.places.specs.Gabriel.{gabriel_refusal, gabriel_left};
ghost use Rattle.places.specs.Bands.{band_refusal, bands_left};

// What the reader and the writer of the job image judge by too.
pub use judging::{any_misplaced, judge_in_turn};
use refusals::Refusal;

// Makes the Gabriel network of the places, two coordinates for each zone: `weights` is lent n × n places, a row for each zone, and is left
// as it was where the call is refused.
pub fn gabriel(n: usize, places: &[i32], weights: &mut [u8]) -> Result<(), Refusal>
    ensures number { number_of result ≡ gabriel_refusal n places.now (length weights.old) }
    ensures lent { weights.new ≡ gabriel_left n places.now weights.old }
{
    let zones = judging::judge_places(n, places, weights.len())?;
    joining::join_pairs(&zones, weights);
    Ok(())
}

// Puts each pair of zones into the class of the first band that its squared distance does not exceed: `classes` is lent n × n places, a
// row for each zone, and is left as it was where the call is refused.
pub fn bands(n: usize, places: &[i32], bands: &[u32], classes: &mut [u8]) -> Result<(), Refusal>
    ensures number { number_of result ≡ band_refusal n places.now bands.now (length classes.old) }
    ensures lent { classes.new ≡ bands_left n places.now bands.now classes.old }
{
    let zones = judging::judge_places(n, places, classes.len())?;
    judging::judge_bands(bands)?;
    banding::class_pairs(&zones, bands, classes);
    Ok(())
}
