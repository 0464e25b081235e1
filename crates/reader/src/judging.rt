// The judge of an image: section after section, then 17, 6 and 7. It stores nothing.
ghost use Rattle.std.specs.Prelude.{◌≡◌, IfOk, length};
ghost use Rattle.whole.specs.Rules.{first_broken};
ghost use Rattle.whole.specs.Table.{table};
ghost use Rattle.account.specs.Refusals.{sum_rules};
ghost use Rattle.image.specs.Joins.{weights_of};
ghost use Rattle.image.specs.Image.{signed_words, image_rules};
ghost use Rattle.image.specs.Reader.{counts_in};
ghost use Rattle.reader.specs.Answers.{six};
ghost use Rattle.refusals.specs.Refusals.{number_of};
ghost use Rattle.reader.specs.Steps.{Summable, LaidOut, join_at, sizes};

use crate::sections::{
    Section, in_bands, in_categories, in_joins, in_places, in_shuffles, in_values, judge_entries,
};
use crate::zones::Zones;
use crate::{Counts, joining};
use refusals::Refusal;

// The six sections of an image that is not refused.
#[derive(Clone, Copy)]
pub(super) struct Sections<'a> {
    pub(super) values: Section<'a>,
    pub(super) categories: Section<'a>,
    pub(super) joins: &'a [[u8; 3]],
    pub(super) places: Section<'a>,
    pub(super) bands: Section<'a>,
    pub(super) shuffles: Section<'a>,
}

impl Sections<'_> {
    // How many items each has.
    pub(super) fn counts(&self) -> Counts
        ensures { six result ≡ sizes self.now }
    {
        Counts {
            values: self.values.count,
            categories: self.categories.count,
            joins: self.joins.len(),
            places: self.places.count,
            bands: self.bands.count,
            shuffles: self.shuffles.count,
        }
    }
}

// 6 and 7 of n values and the joins, from copies of their own.
fn judge_sums(n: usize, items: &[u8], joins: &[[u8; 3]]) -> Result<(), Refusal>
    requires { Summable n items.now joins.now }
    ensures { number_of result ≡ first_broken (sum_rules n (signed_words n items.now)
        (weights_of n (table (join_at joins.now) (length joins.now)))) }
{
    let mut table = [0; 4096];
    let weights = &mut table[..n * n];
    joining::put_joins(n, joins, weights);
    judge_entries(
        [0; 64],
        n,
        items,
        |values| account::judge(n, values, weights),
    )
}

// Judges an image from its first byte to its last.
pub(super) fn judge(image: &[u8]) -> Result<Sections<'_>, Refusal>
    ensures number { number_of result ≡ first_broken (image_rules image.now) }
    ensures laid { IfOk result (LaidOut image.now) }
{
    let (values, rest) = in_values(image)?;
    let zones = Zones { n: values.count };
    let (categories, rest) = in_categories(zones, rest)?;
    let (joins, rest) = in_joins(zones, rest)?;
    let (places, rest) = in_places(zones, rest)?;
    let (bands, rest) = in_bands(places.count, rest)?;
    let (shuffles, rest) = in_shuffles(zones, rest)?;
    if !rest.is_empty() {
        return Err(Refusal::Trailing);
    }
    judge_sums(zones.n, values.items, joins)?;
    Ok(Sections {
        values,
        categories,
        joins,
        places,
        bands,
        shuffles,
    })
}
