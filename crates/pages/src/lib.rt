// Text into a page, which is a list of bytes. Each call is told the place to begin at and answers the place behind what it has put. What
// does not fit is left out, and a place beyond the page's end is its end. Page and place stand side by side: the calls are public, and a
// struct of both would ask each caller to make one.
#![tactic(auto)]

ghost use Rattle.std.specs.Prelude.{◌≡◌, [], ◌∷◌, ◌++◌, ◌*◌, ◌≤◌, length};
ghost use Rattle.digits.specs.Digits.{decimal};
ghost use Rattle.pages.specs.Lines.{field, numbers, bits as bits_of};
ghost use Rattle.pages.specs.Pages.{Puts};

// Bytes into as many places. One by one: for the library's copy the calls for C would need memmove from outside, which they do not name.
#[tactic(auto, using(crate::proofs::Puts::copied_next))]
fn copy(bytes: &[u8], places: &mut [u8])
    requires { length bytes.now ≡ length places.old }
    ensures { places.new ≡ bytes.now }
{
    for (k, place) in places.iter_mut().enumerate() {
        *place = bytes[k];
    }
}

// Bytes as they are.
#[tactic(auto, using(crate::proofs::Puts::puts_copied))]
pub fn put(page: &mut [u8], at: usize, text: &[u8]) -> usize
    ensures { Puts page.old page.new at result text.now }
{
    let start = at.min(page.len());
    let fits = text.len().min(page.len() - start);
    let end = start + fits;
    copy(&text[..fits], &mut page[start..end]);
    end
}

// One byte.
pub fn put_byte(page: &mut [u8], at: usize, byte: u8) -> usize
    ensures { Puts page.old page.new at result (byte ∷ []) }
{
    if at < page.len() {
        page[at] = byte;
        return at + 1;
    }
    page.len()
}

// A whole number.
pub fn put_number(page: &mut [u8], at: usize, number: i64) -> usize
    ensures { Puts page.old page.new at result (field (decimal number)) }
{
    let mut text: [u8; 20] = [0; 20];
    let k = digits::decimal(number, &mut text);
    let place = put_byte(page, at, b' ');
    put(page, place, &text[..k])
}

// Whole numbers, one after the other. None has more than 21 bytes with its space, which the contracts say, since a caller cannot see it.
pub fn put_numbers(page: &mut [u8], at: usize, list: &[i64]) -> usize
    ensures text { Puts page.old page.new at result (numbers list.now) }
    ensures width { length (numbers list.now) ≤ 21 * length list.now }
{
    let mut place = at.min(page.len());
    for number in list {
        place = put_number(page, place, *number);
    }
    place
}

// The 64 bits of a float.
pub fn put_bits(page: &mut [u8], at: usize, bits: u64) -> usize
    ensures { Puts page.old page.new at result (bits_of bits) }
{
    let mut text: [u8; 16] = [0; 16];
    digits::hexadecimal(bits, &mut text);
    let place = put_byte(page, at, b' ');
    put(page, place, &text)
}

// How a line begins: its word and its numbers.
pub fn put_start(page: &mut [u8], at: usize, word: &[u8], list: &[i64]) -> usize
    ensures text { Puts page.old page.new at result (word.now ++ numbers list.now) }
    ensures width { length (numbers list.now) ≤ 21 * length list.now }
{
    let place = put(page, at, word);
    put_numbers(page, place, list)
}

// A line of numbers.
pub fn put_line(page: &mut [u8], at: usize, word: &[u8], list: &[i64]) -> usize
    ensures text { Puts page.old page.new at result
        (word.now ++ (numbers list.now ++ (10 ∷ []))) }
    ensures width { length (numbers list.now) ≤ 21 * length list.now }
{
    let place = put_start(page, at, word, list);
    put_byte(page, place, b'\n')
}
