// The classes of pairs of zones, by bands that were judged and accepted.
ghost use Rattle.std.specs.Prelude.{◌≡◌, not, ◌*◌, ◌≤◌, pos, length};
ghost use Rattle.std.specs.Int.Signed.{lt_z};
ghost use Rattle.places.specs.Steps.{coordinates};
ghost use Rattle.places.specs.Bands.{band_class, band_classes};

use crate::distances::ZonePlaces;

// Whether a squared distance does not exceed a band.
fn is_within(band: u32, distance: i64) -> bool
    ensures { result ≡ not (lt_z (pos band) distance) }
{
    distance <= i64::from(band)
}

// The class of a squared distance: the first band that it does not exceed, else 0.
fn band_class(bands: &[u32], distance: i64) -> u8
    requires { length bands.now ≤ 8 }
    ensures { result ≡ band_class bands.now distance }
{
    bands
        .iter()
        .position(|band| is_within(*band, distance))
        .map_or(0, |k| k as u8 + 1) // no From leads here from a usize; TryFrom and an unwrap is no plainer
}

// The class of each pair, 0 on the diagonal. The p-th pair is zone p / n and zone p % n: one walk over the list that is written, of whose
// rows, lent by `chunks_exact_mut`, no proof would know what was written.
pub(super) fn class_pairs(zones: &ZonePlaces, bands: &[u32], classes: &mut [u8])
    requires bands_len_bound { length bands.now ≤ 8 }
    requires classes_len { length classes.old ≡ length zones.now.zones.now * length zones.now.zones.now }
    ensures { classes.new ≡ band_classes (length zones.now.zones.now) (coordinates zones.now.zones.now) bands.now }
{
    let n = zones.zones.len();
    for (p, class) in classes.iter_mut().enumerate() {
        let a = p / n;
        let b = p % n;
        *class = if a == b {
            0 // on the diagonal
        } else {
            band_class(bands, zones.squared_distance(a, b))
        };
    }
}
