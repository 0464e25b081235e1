// Lines of a report into a page that has room for them. Each call is told the place to begin at, and answers the place behind what it has
// put.
// Page and place stay two, as the public calls of `pages` below take them: with a struct of both, tried, the check no longer found the
// room for each of fifteen further calls by itself.
ghost use Rattle.std.specs.Prelude.{◌≡◌, ⊤, List, [], ◌∷◌, ◌++◌, ℕ, ◌≤◌, length};
ghost use Rattle.pages.specs.Lines.{numbers};
ghost use Rattle.report.specs.Lines.{sign, rounded, coefficient};
ghost use Rattle.report.specs.Steps.{Put, Room};
ghost use Rattle.coefficients.specs.Steps.{Readable, ReadablePair};

use coefficients::{Coefficient, Pair};
use nearest::Side;

// What a line has besides its figures: a word of at most eight letters, and at most four numbers.
#[derive(Clone, Copy)]
pub(super) struct Line<'a> {
    pub(super) word: &'a [u8],
    pub(super) numbers: &'a [i64],
    ghost short: { length word.now ≤ 8 },
    ghost few: { length numbers.now ≤ 4 },
}

// How a line begins: its word and its numbers.
fn put_start(page: &mut [u8], at: usize, line: &Line) -> usize
    requires room { Room page.old at 92 }
    ensures { Put page.old page.new at result 92
        (line.now.word.now ++ numbers line.now.numbers.now) }
{
    pages::put_start(page, at, line.word, line.numbers)
}

// A line of numbers.
pub(super) fn put_line(page: &mut [u8], at: usize, line: &Line) -> usize
    requires room { Room page.old at 96 }
    ensures { Put page.old page.new at result 96
        (line.now.word.now ++ (numbers line.now.numbers.now ++ (10 ∷ []))) }
{
    pages::put_line(page, at, line.word, line.numbers)
}

// The sign of a side.
fn sign(side: Side) -> u8
    ensures { result ∷ [] ≡ sign side }
{
    match side {
        Side::Equal => b'=',
        Side::Below => b'<',
        Side::Above => b'>',
    }
}

// The bits of a float, and right after them the sign of its side.
fn put_rounded(page: &mut [u8], at: usize, bits: u64, side: Side) -> usize
    requires room { Room page.old at 18 }
    ensures { Put page.old page.new at result 18 (rounded bits side) }
{
    let place = pages::put_bits(page, at, bits);
    pages::put_byte(page, place, sign(side))
}

// The bits of a coefficient and its sign, or that there is none.
fn put_coefficient(page: &mut [u8], at: usize, figure: Coefficient) -> usize
    requires readable { Readable figure }
    requires room { Room page.old at 18 }
    ensures { Put page.old page.new at result 18 (coefficient figure) }
{
    match figure {
        Coefficient::Figure(x, side) => put_rounded(page, at, x.to_bits(), side),
        Coefficient::Weightless => pages::put(page, at, b" -"),
    }
}

// The line feed.
fn put_end(page: &mut [u8], at: usize) -> usize
    requires { Room page.old at 1 }
    ensures { Put page.old page.new at result 1 (10 ∷ []) }
{
    pages::put_byte(page, at, b'\n')
}

// What a line has behind its numbers.
pub(super) trait Field: Copy {
    ghost text: { Self → List ℕ };

    ghost printable: { Self → Type 0 };

    fn put(self, page: &mut [u8], at: usize) -> usize
        requires printable { printable self }
        requires room { Room page.old at 36 }
        ensures { Put page.old page.new at result 36 (text self) };
}

// The local Moran of a zone: its bits, and its side.
#[derive(Clone, Copy)]
pub(super) struct Local {
    pub(super) bits: u64,
    pub(super) side: Side,
}

impl Field for Local {
    ghost text = { λ local. rounded local.bits local.side };

    ghost printable = { λ local. ⊤ };

    fn put(self, page: &mut [u8], at: usize) -> usize {
        put_rounded(page, at, self.bits, self.side)
    }
}

// One coefficient.
impl Field for Coefficient {
    ghost text = { coefficient };

    ghost printable = { Readable };

    fn put(self, page: &mut [u8], at: usize) -> usize {
        put_coefficient(page, at, self)
    }
}

// Moran and Geary.
impl Field for Pair {
    ghost text = { λ pair. coefficient pair.moran ++ coefficient pair.geary };

    ghost printable = { ReadablePair };

    fn put(self, page: &mut [u8], at: usize) -> usize {
        let moran = self.moran;
        let geary = self.geary;
        let place = put_coefficient(page, at, moran);
        put_coefficient(page, place, geary)
    }
}

// A line of numbers and what stands behind them.
pub(super) fn put_field_line<F: Field>(page: &mut [u8], at: usize, line: &Line, field: F) -> usize
    requires printable { F.printable field }
    requires room { Room page.old at 129 }
    ensures { Put page.old page.new at result 129
        (line.now.word.now ++ ((numbers line.now.numbers.now ++ F.text field) ++ (10 ∷ []))) }
{
    let place = put_start(page, at, line);
    let end = field.put(page, place);
    put_end(page, end)
}
