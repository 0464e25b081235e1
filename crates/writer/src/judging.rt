// The judge of a job that is to be written: 1, then 2, then its parts in the image's order, a count before its items, then 6 and 7.
ghost use Rattle.std.specs.Prelude.{◌≡◌, ◌∷◌, ◌*◌, take};
ghost use Rattle.whole.specs.Rules.{first_broken, in_turn};
ghost use Rattle.refusals.specs.Refusals.{number_of};
ghost use Rattle.places.specs.Places.{places_in_turn};
ghost use Rattle.image.specs.Joins.{weight_rules};
ghost use Rattle.image.specs.Image.{none_or_all_rule, band_count_rule, shuffle_count_rule};
ghost use Rattle.image.specs.Image.{category_rules, band_rules, shuffle_rules};
ghost use Rattle.image.specs.Writer.{listed, lent_job, part_rules};
ghost use Rattle.writer.specs.Steps.{judged_rules};

use crate::joining;
use crate::lists::{SizedLists, Table};
use image::{Given, Lists};
use refusals::Refusal;

// 15 and 8: the categories.
fn judge_categories(job: &SizedLists) -> Result<(), Refusal>
    ensures { number_of result
        ≡ first_broken (none_or_all_rule job.now.given.values job.now.given.categories
        ∷ category_rules (take job.now.given.categories job.now.lists.categories.now)) }
{
    image::judge_none_or_all(job.given.values, job.given.categories)?;
    judges::judge_categories(job.categories())
}

// 5 and 4: the weights. Which of them comes first, row by row, is asked only where a search of the table finds one: asked of each, a write takes
// half as long again (docs/PERFORMANCE.md).
fn judge_weights(table: &Table) -> Result<(), Refusal>
    ensures { number_of result
        ≡ first_broken (in_turn (weight_rules table.now.n table.now.weights.now) (table.now.n * table.now.n)) }
{
    if judges::any_above(9, table.weights) || judges::any_on_diagonal(table.n, table.weights) {
        return joining::judge_weights(table);
    }
    Ok(())
}

// 15, 10 and 11: the places.
fn judge_places(job: &SizedLists) -> Result<(), Refusal>
    ensures { number_of result
        ≡ first_broken (none_or_all_rule job.now.given.values job.now.given.places
        ∷ places_in_turn (take (2 * job.now.given.places) job.now.lists.places.now)) }
{
    image::judge_none_or_all(job.given.values, job.given.places)?;
    places::judge_in_turn(job.places())
}

// 12: the bands.
fn judge_bands(job: &SizedLists) -> Result<(), Refusal>
    ensures { number_of result
        ≡ first_broken (band_count_rule job.now.given.places job.now.given.bands
        ∷ band_rules (take job.now.given.bands job.now.lists.bands.now)) }
{
    image::judge_band_count(job.given.places, job.given.bands)?;
    // The reader has this test too: one judge for both would be a public function of places about this one `if`, which is no plainer.
    if places::any_misplaced(job.bands()) {
        return Err(Refusal::Bands);
    }
    Ok(())
}

// 15 and 13: the shuffles.
fn judge_shuffles(job: &SizedLists) -> Result<(), Refusal>
    ensures { number_of result
        ≡ first_broken (shuffle_count_rule job.now.given.shuffles
        ∷ shuffle_rules job.now.given.values (take (job.now.given.shuffles * job.now.given.values) job.now.lists.shuffles.now)) }
{
    image::judge_shuffle_count(job.given.shuffles)?;
    shuffles::judge_shuffles(job.given.values, job.shuffles())
}

// The parts, where 1 and 2 are judged.
fn judge_parts(job: &SizedLists) -> Result<(), Refusal>
    ensures { number_of result ≡ first_broken (part_rules job.now.given (lent_job job.now.given (listed job.now.lists))) }
{
    judges::judge_values(job.values())?;
    judge_categories(job)?;
    judge_weights(&job.table())?;
    judge_places(job)?;
    judge_bands(job)?;
    judge_shuffles(job)
}

// All but 19.
pub(super) fn judge(lists: Lists, given: Given) -> Result<(), Refusal>
    ensures { number_of result ≡ first_broken (judged_rules given (listed lists.entry)) }
{
    image::judge_zone_count(given.values)?;
    image::judge_lengths(
        lists.values.len(),
        lists.categories.len(),
        lists.weights.len(),
        lists.places.len(),
        lists.bands.len(),
        lists.shuffles.len(),
    )?;
    let job = SizedLists { given, lists };
    judge_parts(&job)?;
    account::judge(given.values, job.values(), job.table().weights)
}
