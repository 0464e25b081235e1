// Part 2: p over q, both whole, as the nearest 64-bit float. Nothing else in the project rounds.
#![tactic(auto)]

mod division;
mod scaling;

ghost use Rattle.std.specs.Prelude.{◌≡◌, pos};
ghost use Prim.Native.Nat.{◌*◌, ◌^◌, ◌<◌, compare};
ghost use Rattle.std.specs.Float.Ieee.{nearest};
ghost use Rattle.refusals.specs.Refusals.{number_of};
ghost use Rattle.nearest.specs.Answers.{figures_of, NearestIn, nearest_refusal, nearest_rounded, nearest_figures};
ghost use Rattle.nearest.specs.Bits.{signed};
ghost use Rattle.nearest.specs.Sides.{side_number};
ghost use Rattle.nearest.specs.Steps.{taken_side};

use refusals::Refusal;

// On which side of the ratio its float lies, by value: where both are below 0, the nearer to 0 is above.
#[derive(Clone, Copy)]
pub enum Side {
    Equal = 0,
    Below = 1,
    Above = 2,
}

// A float, and the side of its ratio that it lies on.
#[derive(Clone, Copy)]
pub struct Rounded {
    pub float: f64,
    pub side: Side,
}

// What p and q may be in size.
const LIMIT: u64 = 6000000000000000000;

// 18 where the divisor is below 1 or a number is too large.
fn judge(p: i64, q: i64) -> Result<(), Refusal>
    ensures { number_of result ≡ nearest_refusal p q }
{
    if q < 1 || signs::size(p) > LIMIT || signs::size(q) > LIMIT {
        Err(Refusal::Ratio)
    } else {
        Ok(())
    }
}

// The whole part or the next number, whichever is nearer; at a tie the even one.
fn half_to_even(whole: u64, rest: u64, divisor: u64) -> u64
    requires { whole < 2 ^ 53 }
    ensures { result ≡ nearest whole (compare (rest * 2) divisor) }
{
    if halves::rounds_up(whole, rest, divisor) {
        whole + 1
    } else {
        whole
    }
}

// Where the number taken lies beside the quotient, or its negative beside the quotient's: nothing was left over; or, of a size, the whole part
// was kept, or it went up.
fn side_taken(minus: bool, whole: u64, rest: u64, taken: u64) -> Side
    ensures { result ≡ taken_side minus whole rest taken }
{
    let up = taken != whole;
    if rest == 0 {
        Side::Equal
    } else if up == minus {
        Side::Below
    } else {
        Side::Above
    }
}

// The nearest float to the ratio of two sizes, with a sign.
fn ratio(minus: bool, a: u64, q: u64) -> Rounded
    requires a_nonzero { 0 < a }
    requires a_bound { a < 2 ^ 63 }
    requires q_nonzero { 0 < q }
    requires q_bound { q < 2 ^ 63 }
    ensures { result ≡ nearest_rounded (signed minus a) (pos q) }
{
    let by = division::widened(q);
    let x = division::long_division(a, by.divisor);
    let m = half_to_even(x.whole, x.rest, by.divisor);
    let size = scaling::scaled(m, by.doublings, x.halvings);
    Rounded {
        float: if minus { -size } else { size },
        side: side_taken(minus, x.whole, x.rest, m),
    }
}

// The nearest float for numbers that were judged. Size first, sign after: 0 has none.
fn float_of(p: i64, q: i64) -> Rounded
    requires { nearest_refusal p q ≡ 0 }
    ensures { result ≡ nearest_rounded p q }
{
    let a = signs::size(p);
    if a == 0 {
        return Rounded {
            float: 0.0,
            side: Side::Equal,
        };
    }
    ratio(signs::is_below_zero(p), a, signs::size(q))
}

// The nearest float to p over q: at a tie the even one, and +0 for 0. And which way it was rounded.
// The hint is measured: the compiler left it a call, with its answer in memory, which took a tenth longer.
#[inline]
pub fn nearest(p: i64, q: i64) -> Result<Rounded, Refusal>
    ensures number { number_of result ≡ nearest_refusal p q }
    ensures figures { figures_of result ≡ nearest_figures p q }
    ensures nearest { NearestIn p q result }
{
    judge(p, q)?;
    Ok(float_of(p, q))
}

// The number of a side, by which lists of bytes hold it.
pub fn side_number(side: Side) -> u8
    ensures { result ≡ side_number side }
{
    // no From leads from an enum to its number
    side as u8
}
