// Room for bytes in fixed memory, of a size that its type gives.
#![tactic(auto)]

ghost use Rattle.std.specs.Prelude.{◌≡◌, length, All};

// N places for bytes, each 0 at first. A proof that writes [0; 31936] has a list of that many entries before it; of this one it has the
// length, and what every entry is.
pub fn room<const N: usize>() -> [u8; N]
    ensures size { length result ≡ N }
    ensures entries { All (λ byte. byte ≡ 0) result }
{
    [0; N]
}
