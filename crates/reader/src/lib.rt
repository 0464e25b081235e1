// The reader: the job of an image into the lent buffers. An image is judged from its first byte to its last before anything is
// stored.
#![tactic(auto)]

mod joining;
mod judging;
mod sections;
mod storing;
mod zones;

ghost use Rattle.std.specs.Prelude.{◌≡◌};
ghost use Rattle.image.specs.Reader.{buffers, read_refusal, read_counts, read_left};
ghost use Rattle.refusals.specs.Refusals.{number_of};
ghost use Rattle.reader.specs.Answers.{counts_of};

use refusals::Refusal;

// How many there are of each in an image. Callers read each of the six by its name: with five of them in an image::Given, and the joins
// beside it, they would have to know in which of two places a count stands.
#[derive(Clone, Copy)]
pub struct Counts {
    pub values: usize,
    pub categories: usize,
    pub joins: usize,
    pub places: usize,
    pub bands: usize,
    pub shuffles: usize,
}

// Reads an image into the buffers, which have 64, 64, 4,096, 128, 8 and 31,936 entries: the first of each are the job's, a weight with no
// join among them 0, and the others keep what they held. Where it is refused all are left as they were.
#[tactic(auto, unfolding(image::specs::Reader::read_refusal, image::specs::Reader::read_rules, image::specs::Reader::read_counts, image::specs::Reader::read_left, crate::specs::Answers::counts_of))]
pub fn read(
    image: &[u8],
    values: &mut [i32],
    categories: &mut [u8],
    weights: &mut [u8],
    places: &mut [i32],
    bands: &mut [u32],
    shuffles: &mut [u8],
) -> Result<Counts, Refusal>
    ensures number { number_of result ≡ read_refusal image.now
        (buffers values.old categories.old weights.old
        places.old bands.old shuffles.old) }
    ensures counts { counts_of result ≡ read_counts image.now
        (buffers values.old categories.old weights.old
        places.old bands.old shuffles.old) }
    ensures lent { buffers values.new categories.new weights.new
        places.new bands.new shuffles.new
        ≡ read_left image.now
        (buffers values.old categories.old weights.old
        places.old bands.old shuffles.old) }
{
    image::judge_lengths(
        values.len(),
        categories.len(),
        weights.len(),
        places.len(),
        bands.len(),
        shuffles.len(),
    )?;
    let job = judging::judge(image)?;
    storing::store(&job, values, categories, weights, places, bands, shuffles);
    Ok(job.counts())
}
