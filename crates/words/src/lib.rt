// Numbers in bytes, their lowest byte first, for whatever takes them from an image or from a program's input.
#![tactic(auto)]

ghost use Rattle.std.specs.Prelude.{◌≡◌, List, ℕ, ◌+◌, ◌*◌, ◌<◌, length};
ghost use Rattle.std.specs.Int.{w32, w64};
ghost use Rattle.std.proofs.Common.{to_z};
ghost use Rattle.whole.specs.Table.{table};
ghost use Rattle.words.specs.Words.{byte_at, two_at, word_at, long_at};

use std::array;

// The byte at a place, or 0 beyond the end.
fn byte(bytes: &[u8], at: usize) -> u8
    ensures { result ≡ byte_at bytes.now at }
{
    bytes.get(at).copied().unwrap_or(0)
}

// As many bytes from a place on as are asked for, those beyond the end 0.
fn taken<const N: usize>(bytes: &[u8], at: usize) -> [u8; N]
    ensures { result ≡ table (λ k. byte_at bytes.now (at + k)) N }
{
    array::from_fn(|k| byte(bytes, at.saturating_add(k)))
}

// The number of one byte. Public functions stay, by a rule of the project, though no other crate calls this one.
pub fn byte_at(bytes: &[u8], at: usize) -> u32
    ensures value { result ≡ byte_at bytes.now at }
    ensures upper_bound { result < 256 }
{
    u32::from(byte(bytes, at))
}

// The number of two bytes.
#[tactic(auto, unfolding(crate::specs::Words::two_at, whole::specs::Table::table))]
pub fn two_at(bytes: &[u8], at: usize) -> u32
    ensures value { result ≡ two_at bytes.now at }
    ensures upper_bound { result < 65536 }
{
    u32::from(u16::from_le_bytes(taken(bytes, at)))
}

// The number of four bytes.
#[tactic(auto, unfolding(crate::specs::Words::word_at, whole::specs::Table::table))]
pub fn word_at(bytes: &[u8], at: usize) -> u32
    ensures { result ≡ word_at bytes.now at }
{
    u32::from_le_bytes(taken(bytes, at))
}

// The number of eight bytes.
#[tactic(auto, unfolding(crate::specs::Words::long_at, crate::specs::Words::word_at, whole::specs::Table::table))]
pub fn long_at(bytes: &[u8], at: usize) -> u64
    ensures { result ≡ long_at bytes.now at }
{
    u64::from_le_bytes(taken(bytes, at))
}

// The signed number that 32 bits stand for.
// Here and below the library's method alone is called, and the function stays, as public ones do by a rule of the project.
pub fn signed_word(word: u32) -> i32
    ensures { result ≡ to_z w32 word }
{
    word.cast_signed()
}

// The signed number that 64 bits stand for.
pub fn signed_long(long: u64) -> i64
    ensures { result ≡ to_z w64 long }
{
    long.cast_signed()
}

// A number that stands in bytes, one right behind the other.
pub trait Entry: Copy {
    // the k-th of the numbers that stand there
    ghost nth: { List ℕ → ℕ → Self };

    fn nth(bytes: &[u8], k: usize) -> Self
        ensures { result ≡ nth bytes.now k };
}

impl Entry for u8 {
    ghost nth = { byte_at };

    fn nth(bytes: &[u8], k: usize) -> u8 {
        byte(bytes, k)
    }
}

impl Entry for u32 {
    ghost nth = { λ bytes k. word_at bytes (4 * k) };

    // A place that is too large for a usize is beyond the end, as the greatest is.
    #[tactic(auto, using(crate::proofs::Beyond::word_far))]
    fn nth(bytes: &[u8], k: usize) -> u32 {
        word_at(bytes, k.saturating_mul(4))
    }
}

impl Entry for i32 {
    ghost nth = { λ bytes k. to_z w32 (word_at bytes (4 * k)) };

    fn nth(bytes: &[u8], k: usize) -> i32 {
        signed_word(u32::nth(bytes, k))
    }
}

// The numbers that stand in the bytes, as many as there are places for them.
#[tactic(auto, using(crate::proofs::Filled::filled_none, crate::proofs::Filled::filled_next))]
pub fn entries_in<T: Entry>(bytes: &[u8], numbers: &mut [T])
    ensures { numbers.new ≡ table (T.nth bytes.now) (length numbers.old) }
{
    for (k, number) in numbers.iter_mut().enumerate() {
        *number = T::nth(bytes, k);
    }
}
