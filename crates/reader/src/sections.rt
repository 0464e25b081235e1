// The sections of an image: each is taken from the front of what is left of it, judged by its count, then by its items.
ghost use Rattle.std.specs.Prelude.{◌≡◌, true, false, [], ◌∷◌, ℕ, ◌+◌, ◌*◌, ◌≤◌, ◌<◌, ltb, length, drop, take, MatchResult, IfOk};
ghost use Rattle.std.specs.Fn.{FnOnceReturnsAt};
ghost use Rattle.whole.specs.Rules.{first_broken};
ghost use Rattle.whole.specs.Table.{table};
ghost use Rattle.places.specs.Places.{places_in_turn};
ghost use Rattle.image.specs.Image.{count, items, after, signed_words, words, value_rules, band_rules, shuffle_rules};
ghost use Rattle.image.specs.Image.{in_values, in_categories, in_joins, in_places, in_bands, in_shuffles};
ghost use Rattle.refusals.specs.Refusals.{number_by, number_of};
ghost use Rattle.reader.specs.Steps.{Held, Joins};

use crate::joining;
use crate::zones::Zones;
use refusals::Refusal;
use words::Entry;

// A section: the count of its items, and their bytes. The bytes alone would not tell the count: the size of a shuffle is n, and no type's.
#[derive(Clone, Copy)]
pub(super) struct Section<'a> {
    pub(super) count: usize,
    pub(super) items: &'a [u8],
}

// The count at the front of some bytes, and what follows it: 14 if it is cut.
#[tactic(auto, unfolding(words::specs::Words::two_at))]
fn count_of(bytes: &[u8]) -> Result<(usize, &[u8]), Refusal>
    ensures { MatchResult result
        (λ p. (ltb (length bytes.now) 2 ≡ false) × (p.0 ≡ count bytes.now) × (p.0 < 65536) × (p.1.now ≡ items bytes.now))
        (λ e. (ltb (length bytes.now) 2 ≡ true) × (number_by e ≡ 14)) }
{
    let (count, rest) = bytes.split_first_chunk::<2>().ok_or(Refusal::Cut)?;
    Ok((words::two_at(count, 0) as usize, rest)) // no From leads here from a u32
}

// So many items of a size, and what follows them: 14 if they are cut.
fn cut_off(count: usize, size: usize, bytes: &[u8]) -> Result<(Section<'_>, &[u8]), Refusal>
    requires count_bound { count < 65536 }
    requires size_bound { size ≤ 64 }
    ensures { MatchResult result
        (λ p. (size * count ≤ length bytes.now) × (p.0.count ≡ count) × (p.0.items.now ≡ take (size * count) bytes.now)
        × (p.1.now ≡ drop (size * count) bytes.now))
        (λ e. (length bytes.now < size * count) × (number_by e ≡ 14)) }
{
    let (items, rest) = bytes.split_at_checked(size * count).ok_or(Refusal::Cut)?;
    Ok((Section { count, items }, rest))
}

// What a judge says of so many numbers that stand in bytes: it is lent them in a copy, which has room for the most.
// A judge of another crate comes in a closure: of its bare name the check would not know the contract.
pub(super) fn judge_entries<T: Entry, const ROOM: usize, F: FnOnce(&[T]) -> Result<(), Refusal>>(
    mut room: [T; ROOM],
    count: usize,
    bytes: &[u8],
    judge: F,
) -> Result<(), Refusal>
    requires few { count ≤ ROOM }
    requires callable { F.IsAlwaysCallable judge }
    ensures { FnOnceReturnsAt F.FnOnce judge (table (T.nth bytes.now) count) result }
{
    let numbers = &mut room[..count];
    words::entries_in(bytes, numbers);
    judge(numbers)
}

// 3: a value too far from 0.
fn judge_values(count: usize, items: &[u8]) -> Result<(), Refusal>
    requires { count ≤ 64 }
    ensures { number_of result ≡ first_broken (value_rules (signed_words count items.now)) }
{
    judge_entries([0; 64], count, items, |values| judges::judge_values(values))
}

// 10 and 11: a place too far off, or that of an earlier zone.
fn judge_places(count: usize, items: &[u8]) -> Result<(), Refusal>
    requires { count ≤ 64 }
    ensures { number_of result ≡ first_broken (places_in_turn (signed_words (2 * count) items.now)) }
{
    judge_entries(
        [0; 128],
        2 * count,
        items,
        |places| places::judge_in_turn(places),
    )
}

// 12: a band that is 0, or not above the one before it.
fn judge_bands(count: usize, items: &[u8]) -> Result<(), Refusal>
    requires { count ≤ 8 }
    ensures { number_of result ≡ first_broken (band_rules (words count items.now)) }
{
    judge_entries([0; 8], count, items, |bands| {
        if places::any_misplaced(bands) {
            Err(Refusal::Bands)
        } else {
            Ok(())
        }
    })
}

// The six have one shape. One function for all would be handed two judges, whose rules each of its calls would have to name: no plainer.

// The values, whose section is the first.
#[tactic(auto, using(std::proofs::lemmas::Grind::common_steps, crate::proofs::Items::values_held), unfolding(image::specs::Image::in_values))]
pub(super) fn in_values(image: &[u8]) -> Result<(Section<'_>, &[u8]), Refusal>
    ensures number { number_of result ≡ first_broken (in_values image.now) }
    ensures taken { IfOk result (λ p. Held 4 image.now p.0 × (p.1.now ≡ after 4 image.now)) }
{
    let (count, items) = count_of(image)?;
    image::judge_zone_count(count)?;
    let (values, rest) = cut_off(count, 4, items)?;
    judge_values(count, values.items)?;
    Ok((values, rest))
}

// The categories of n zones.
#[tactic(auto, using(std::proofs::lemmas::Grind::common_steps, crate::proofs::Items::categories_held), unfolding(image::specs::Image::in_categories))]
pub(super) fn in_categories(zones: Zones, left: &[u8]) -> Result<(Section<'_>, &[u8]), Refusal>
    ensures number { number_of result ≡ first_broken (in_categories zones.n left.now) }
    ensures taken { IfOk result (λ p. Held 1 left.now p.0 × (p.1.now ≡ after 1 left.now)) }
{
    let (count, items) = count_of(left)?;
    image::judge_none_or_all(zones.n, count)?;
    let (categories, rest) = cut_off(count, 1, items)?;
    judges::judge_categories(categories.items)?;
    Ok((categories, rest))
}

// The joins of n zones, three bytes each.
#[tactic(auto, unfolding(image::specs::Image::in_joins))]
pub(super) fn in_joins(zones: Zones, left: &[u8]) -> Result<(&[[u8; 3]], &[u8]), Refusal>
    ensures number { number_of result ≡ first_broken (in_joins zones.n left.now) }
    ensures taken { IfOk result (λ p. Joins left.now p.0.now × (p.1.now ≡ after 3 left.now)) }
{
    let (count, items) = count_of(left)?;
    image::judge_join_count(count)?;
    let (joins, rest) = cut_off(count, 3, items)?;
    let (joins, _) = joins.items.as_chunks::<3>();
    joining::judge_joins(zones, joins)?;
    Ok((joins, rest))
}

// The places of n zones.
#[tactic(auto, using(std::proofs::lemmas::Grind::common_steps, crate::proofs::Items::places_held), unfolding(image::specs::Image::in_places))]
pub(super) fn in_places(zones: Zones, left: &[u8]) -> Result<(Section<'_>, &[u8]), Refusal>
    ensures number { number_of result ≡ first_broken (in_places zones.n left.now) }
    ensures taken { IfOk result (λ p. Held 8 left.now p.0 × (p.1.now ≡ after 8 left.now)) }
{
    let (count, items) = count_of(left)?;
    image::judge_none_or_all(zones.n, count)?;
    let (places, rest) = cut_off(count, 8, items)?;
    judge_places(count, places.items)?;
    Ok((places, rest))
}

// The bands of a job with so many places.
#[tactic(auto, using(std::proofs::lemmas::Grind::common_steps, crate::proofs::Items::bands_held), unfolding(image::specs::Image::in_bands))]
pub(super) fn in_bands(places: usize, left: &[u8]) -> Result<(Section<'_>, &[u8]), Refusal>
    ensures number { number_of result ≡ first_broken (in_bands places left.now) }
    ensures taken { IfOk result (λ p. Held 4 left.now p.0 × (p.1.now ≡ after 4 left.now)) }
{
    let (count, items) = count_of(left)?;
    image::judge_band_count(places, count)?;
    let (bands, rest) = cut_off(count, 4, items)?;
    judge_bands(count, bands.items)?;
    Ok((bands, rest))
}

// The shuffles of n zones.
#[tactic(auto, using(std::proofs::lemmas::Grind::common_steps, crate::proofs::Items::shuffles_held), unfolding(image::specs::Image::in_shuffles))]
pub(super) fn in_shuffles(zones: Zones, left: &[u8]) -> Result<(Section<'_>, &[u8]), Refusal>
    ensures number { number_of result ≡ first_broken (in_shuffles zones.n left.now) }
    ensures taken { IfOk result (λ p. Held zones.n left.now p.0 × (p.1.now ≡ after zones.n left.now)) }
{
    let (count, items) = count_of(left)?;
    image::judge_shuffle_count(count)?;
    let (shuffles, rest) = cut_off(count, zones.n, items)?;
    shuffles::judge_shuffles(zones.n, shuffles.items)?;
    Ok((shuffles, rest))
}
