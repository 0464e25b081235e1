// The judges: each answers the refusal of the first broken rule, and stores nothing.
ghost use Rattle.std.specs.Prelude.{◌≡◌, [], ◌∷◌, length, IfOk};
ghost use Rattle.whole.specs.Rules.{first_broken};
ghost use Rattle.refusals.specs.Refusals.{number_of};
ghost use Rattle.places.specs.Places.{any_at_one_place, call_rules, places_in_turn};
ghost use Rattle.places.specs.Steps.{coordinates};
ghost use Rattle.places.specs.Bands.{any_misplaced, bands_broken};

use crate::distances::ZonePlaces;
use judges::Places;
use refusals::Refusal;

// Whether two of the zones are at one place.
fn any_at_one_place(zones: &[[i32; 2]]) -> bool
    ensures { result ≡ any_at_one_place (length zones.now) (coordinates zones.now) }
{
    zones
        .iter()
        .enumerate()
        .any(|(a, zone)| zones[..a].contains(zone))
}

// 1, 2, 10 and 11: the zones of the places, or the refusal that the network and the bands share. What the lent entries hold is not judged,
// so their number is all that is asked for.
pub(super) fn judge_places(n: usize, places: &[i32], room: usize) -> Result<ZonePlaces<'_>, Refusal>
    ensures number { number_of result ≡ first_broken (call_rules n places.now room []) }
    ensures zones { IfOk result (λ judged. coordinates judged.zones.now ≡ places.now) }
{
    let (zones, odd) = places.as_chunks::<2>();
    judges::judge_lent(
        n,
        &[
            (zones.len(), Places::Zones),
            (odd.len(), Places::Fixed(0)),
            (room, Places::Pairs),
        ],
    )?;
    if judges::any_beyond(30000, places) {
        return Err(Refusal::Coordinate);
    }
    if any_at_one_place(zones) {
        return Err(Refusal::Place);
    }
    Ok(ZonePlaces { zones })
}

// 10 and 11 zone by zone: at each its coordinates, then the earlier places.
pub fn judge_in_turn(places: &[i32]) -> Result<(), Refusal>
    ensures { number_of result ≡ first_broken (places_in_turn places.now) }
{
    let (zones, _) = places.as_chunks::<2>();
    for (a, zone) in zones.iter().enumerate() {
        if judges::any_beyond(30000, zone) {
            return Err(Refusal::Coordinate);
        }
        if zones[..a].contains(zone) {
            return Err(Refusal::Place);
        }
    }
    Ok(())
}

// Whether a band is 0, or the bands do not rise strictly. Of no bands neither is so.
pub fn any_misplaced(bands: &[u32]) -> bool
    ensures { result ≡ any_misplaced bands.now }
{
    bands.contains(&0) || !bands.is_sorted_by(|low, high| low < high)
}

// Whether the bands break rule 12.
#[tactic(auto, unfolding(crate::specs::Bands::bands_broken))]
fn bands_broken(bands: &[u32]) -> bool
    ensures { result ≡ bands_broken bands.now }
{
    match bands.len() {
        1..=8 => any_misplaced(bands),
        _ => true,
    }
}

// 12: the refusal of the bands by themselves.
pub(super) fn judge_bands(bands: &[u32]) -> Result<(), Refusal>
    ensures { number_of result ≡ first_broken ((bands_broken bands.now, 12) ∷ []) }
{
    if bands_broken(bands) {
        return Err(Refusal::Bands);
    }
    Ok(())
}
