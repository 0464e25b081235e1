// Numbers as they are printed, for a report's fields. Nothing is written anywhere: the digits go to a lent list.
#![tactic(auto)]

ghost use Rattle.std.specs.Prelude.{◌≡◌, ◌+◌, ◌^◌, ◌≤◌, ◌<◌, length, reverse};
ghost use Rattle.whole.specs.Table.{over};
ghost use Rattle.digits.specs.Digits.{digit, low_digits, unsigned, decimal, hexadecimal};

// The code of a digit.
fn digit(d: u64) -> u8
    requires { d < 16 }
    ensures { result ≡ digit d }
{
    // no From leads here from a u64; TryFrom and an unwrap is no plainer
    if d < 10 {
        b'0' + d as u8
    } else {
        b'A' - 10 + d as u8
    }
}

// How many decimal digits the size of a signed number has.
#[tactic(auto, using(crate::proofs::DecimalDigits::places_one, crate::proofs::DecimalDigits::places_at))]
fn decimal_places(n: u64) -> usize
    requires { n ≤ 2 ^ 63 }
    ensures value { result ≡ length (unsigned n) }
    ensures upper_bound { result ≤ 19 }
{
    // most numbers of a report have one digit, and for these no logarithm is asked
    if n < 10 {
        return 1;
    }
    n.ilog10() as usize + 1 // no From leads here from a u32; TryFrom and an unwrap is no plainer
}

// The last digits of a number in a base, as many as the text has places. By hand: the library states no bytes for `{:X}`, and its crate for decimal
// text, itoa, would be one more to trust.
#[tactic(auto, using(crate::proofs::LowDigits::low_next))]
fn put_digits<const BASE: u64>(n: u64, text: &mut [u8])
    requires lower_bound { 2 ≤ BASE }
    requires upper_bound { BASE ≤ 16 }
    ensures { text.new ≡ reverse (low_digits BASE (length text.old) n) }
{
    let mut rest = n;
    for byte in text.iter_mut() {
        *byte = digit(rest % BASE);
        rest /= BASE;
    }
    text.reverse();
}

// Puts a whole number in decimal at the start of `text`, and answers how many bytes it has. The number and no
// part of the text: that would keep the text lent, and is no plainer.
#[tactic(auto, using(crate::proofs::Printed::printed))]
pub fn decimal(number: i64, text: &mut [u8; 20]) -> usize
    ensures length { result ≡ length (decimal number) }
    ensures few { result ≤ 20 }
    ensures text { text.new ≡ over (decimal number) text.old }
{
    let n = signs::size(number);
    let k = decimal_places(n);
    if signs::is_below_zero(number) {
        text[0] = b'-';
        put_digits::<10>(n, &mut text[1..=k]);
        return k + 1;
    }
    put_digits::<10>(n, &mut text[..k]);
    k
}

// Puts 64 bits as 16 hexadecimal digits into `text`.
#[tactic(auto, using(crate::proofs::LowDigits::hexadecimal_low), unfolding(crate::specs::Digits::hexadecimal))]
pub fn hexadecimal(bits: u64, text: &mut [u8; 16])
    ensures { text.new ≡ hexadecimal bits }
{
    put_digits::<16>(bits, text);
}
