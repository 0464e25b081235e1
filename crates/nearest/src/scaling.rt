// A float from a whole number of at most 2^53: cast, which loses nothing, and multiplied by a power of 2, which is exact.
ghost use Rattle.std.specs.Prelude.{false, ◌⊎◌, ◌≡◌, ◌*◌, ◌^◌, ◌≤◌, ◌<◌};
ghost use Rattle.std.specs.Float.{binary64};
ghost use Rattle.std.specs.Float.Ieee.{round};
ghost use Rattle.std.specs.Float.Ieee.Exact.{HasValue};

// The bits of a float have the field of the exponent above the lower 52.
const FIELD: u64 = 1 << 52;

// 1, doubled and halved so often, by its bits: the field of 1 is 1,023, and a power of 2 has no further digits.
fn power(doublings: u64, halvings: u64) -> f64
    requires doublings_bound { doublings ≤ 10 }
    requires halvings_bound { halvings ≤ 115 }
    ensures { HasValue result false (2 ^ doublings) (2 ^ halvings) }
{
    f64::from_bits((1023 + doublings - halvings) * FIELD)
}

// So many digits, doubled and halved so often.
pub(super) fn scaled(m: u64, doublings: u64, halvings: u64) -> f64
    requires m_nonzero { 0 < m }
    requires m_bound { m ≤ 2 ^ 53 }
    requires doublings_value { (doublings ≡ 0) ⊎ (doublings ≡ 10) }
    requires halvings_bound { halvings ≤ 115 }
    ensures { result ≡ round binary64 false (m * 2 ^ doublings) (2 ^ halvings) }
{
    // no From or TryFrom leads here from a u64: the cast is exact, since m is at most 2^53
    (m as f64) * power(doublings, halvings)
}
