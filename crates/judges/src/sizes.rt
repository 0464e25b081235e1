// The first two rules of every call that is lent lists: n, and the length of each list.
ghost use Rattle.std.specs.Prelude.{◌≡◌, ◌≤◌, []};
ghost use Rattle.whole.specs.Rules.{first_broken, size_rules};
ghost use Rattle.refusals.specs.Refusals.{number_of};
ghost use Rattle.judges.specs.Sizes.{places_for, lengths_for};

use refusals::Refusal;

// How many places a lent list must have.
#[derive(Clone, Copy)]
pub enum Places {
    // one for each zone
    Zones,
    // one for each ordered pair of zones
    Pairs,
    // one for each zone in each of the nine classes
    ClassZones,
    // as many as this, whatever n is
    Fixed(usize),
}

// As many places where there are n zones.
fn places_for(n: usize, places: Places) -> usize
    requires { n ≤ 64 }
    ensures { result ≡ places_for n places }
{
    match places {
        Places::Zones => n,
        Places::Pairs => n * n,
        Places::ClassZones => 9 * n,
        Places::Fixed(many) => many,
    }
}

// 1: n outside 2 to 64.
pub fn judge_zones(n: usize) -> Result<(), Refusal>
    ensures { number_of result ≡ first_broken (size_rules n []) }
{
    if n < 2 || n > 64 {
        return Err(Refusal::Zones);
    }
    Ok(())
}

// 1 and 2: n, then the length of each list beside the places that it must have.
pub fn judge_lent(n: usize, lists: &[(usize, Places)]) -> Result<(), Refusal>
    ensures { number_of result ≡ first_broken (size_rules n (lengths_for n lists.now)) }
{
    judge_zones(n)?;
    for (length, places) in lists {
        if *length != places_for(n, *places) {
            return Err(Refusal::Length);
        }
    }
    Ok(())
}
