// The deviations that the zones take in a shuffle.
ghost use Rattle.std.specs.Prelude.{◌≡◌, length, get_or};
ghost use Rattle.whole.specs.Table.{table, at};

use crate::keeping;
use crate::lists::ShuffleRow;

// The deviations in a shuffle: zone i takes that of the zone named at place i.
pub(super) fn shuffle_deviations(d: &[i64], row: &ShuffleRow, moved: &mut [i64])
    requires d_len { length d.now ≡ length row.now.zones.now }
    requires moved_len { length moved.old ≡ length row.now.zones.now }
    ensures { moved.new ≡ table (λ i. at d.now (get_or row.now.zones.now i 0)) (length row.now.zones.now) }
{
    keeping::pick(d, row.zones, moved);
}
