// The Gabriel network of places that were judged and accepted.
ghost use Rattle.std.specs.Prelude.{◌≡◌, ◌*◌, length};
ghost use Rattle.places.specs.Gabriel.{gabriel_network};
ghost use Rattle.places.specs.Steps.{coordinates};

use crate::distances::ZonePlaces;

// Joins the pairs of zones: the search for a pair stops at the first third zone inside or on its circle. The p-th pair is zone p / n and
// zone p % n. Document 01 names this form for the search: nested loops over pairs and third zones, left from inside by a label.
pub(super) fn join_pairs(zones: &ZonePlaces, weights: &mut [u8])
    requires { length weights.old ≡ length zones.now.zones.now * length zones.now.zones.now }
    ensures { weights.new ≡ gabriel_network (length zones.now.zones.now) (coordinates zones.now.zones.now) }
{
    let n = zones.zones.len();
    'pair: for (p, weight) in weights.iter_mut().enumerate() {
        let a = p / n;
        let b = p % n;
        *weight = 0;
        if a == b {
            continue 'pair;
        }
        let distance = zones.squared_distance(a, b);
        'third: for c in 0..n {
            if c == a || c == b {
                continue 'third;
            }
            if zones.in_circle(a, b, distance, c) {
                continue 'pair;
            }
        }
        *weight = 1;
    }
}
