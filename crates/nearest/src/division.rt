// The integer long division, to a quotient of 53 binary digits.
ghost use Rattle.std.specs.Prelude.{◌≡◌, ◌+◌, ◌*◌, ◌^◌, ◌≤◌, ◌<◌};
ghost use Rattle.nearest.specs.Steps.{Widened, Room, Divided};

// The least number of 53 binary digits.
const LEAST: u64 = 1 << 52;

// Where the divisor leaves room for fewer digits, a division costs more than doublings do.
const WORTH: u64 = 5;

// What is divided by: q, doubled some times.
#[derive(Clone, Copy)]
pub struct Divisor {
    pub divisor: u64,
    pub doublings: u64,
}

// A quotient's whole part and rest. What was divided had been doubled some times, and so often must the quotient be halved. The divisor
// stands beside it, with what is asked of both: as a field it would have to be said of each step that it stays.
#[derive(Clone, Copy)]
pub struct Quotient {
    pub whole: u64,
    pub rest: u64,
    pub halvings: u64,
}

// A small divisor is doubled ten times, lest the first quotient have more than 53 digits.
pub(super) fn widened(q: u64) -> Divisor
    requires q_nonzero { 0 < q }
    requires q_bound { q < 2 ^ 63 }
    ensures { Widened q result.divisor result.doublings }
{
    if q < 1024 {
        Divisor {
            divisor: q * 1024,
            doublings: 10,
        }
    } else {
        Divisor {
            divisor: q,
            doublings: 0,
        }
    }
}

// How often a number can be doubled and stay below 2^64.
fn room(x: u64) -> u64
    ensures { Room x result }
{
    u64::from(x.leading_zeros())
}

// How many digits more one division gives: as many as the divisor leaves room for, and no more than are lacking.
fn count(whole: u64, most: u64) -> u64
    requires whole_bound { whole < 2 ^ 52 }
    requires most_nonzero { 0 < most }
    ensures result_nonzero { 0 < result }
    ensures upper_bound { result ≤ most }
    ensures upper_bound_2 { result ≤ 53 }
    ensures result_bound { (whole + 1) * 2 ^ result ≤ 2 ^ 53 }
{
    let lacking = room(whole) - 11;
    lacking.min(most)
}

// So many binary digits more, by a division.
fn more_digits(x: Quotient, divisor: u64, count: u64) -> Quotient
    requires rest_lt_divisor { x.rest < divisor }
    requires count_bound { (divisor + 1) * 2 ^ count ≤ 2 ^ 64 }
    requires count_bound_2 { (x.whole + 1) * 2 ^ count ≤ 2 ^ 53 }
    requires count_bound_3 { count ≤ 53 }
    requires halvings_bound { x.halvings < 1000 }
    ensures rest_value { result.whole * divisor + result.rest ≡ (x.whole * divisor + x.rest) * 2 ^ count }
    ensures rest_lt_divisor_2 { result.rest < divisor }
    ensures whole_bound { result.whole < 2 ^ 53 }
    ensures halvings_value { result.halvings ≡ x.halvings + count }
{
    let rest = x.rest << count;
    Quotient {
        whole: (x.whole << count) + rest / divisor,
        rest: rest % divisor,
        halvings: x.halvings + count,
    }
}

// One binary digit more.
fn next_digit(x: Quotient, divisor: u64) -> Quotient
    requires rest_lt_divisor { x.rest < divisor }
    requires divisor_bound { divisor < 2 ^ 63 }
    requires whole_bound { x.whole < 2 ^ 52 }
    requires halvings_bound { x.halvings < 1000 }
    ensures rest_value { result.whole * divisor + result.rest ≡ (x.whole * divisor + x.rest) * 2 }
    ensures rest_lt_divisor_2 { result.rest < divisor }
    ensures whole_bound_2 { result.whole < 2 ^ 53 }
    ensures halvings_value { result.halvings ≡ x.halvings + 1 }
{
    let twice = x.rest + x.rest;
    if twice < divisor {
        Quotient {
            whole: x.whole + x.whole,
            rest: twice,
            halvings: x.halvings + 1,
        }
    } else {
        Quotient {
            whole: x.whole + x.whole + 1,
            rest: twice - divisor,
            halvings: x.halvings + 1,
        }
    }
}

// Digits are added until there are 53.
pub(super) fn long_division(a: u64, divisor: u64) -> Quotient
    requires a_nonzero { 0 < a }
    requires a_bound { a < 2 ^ 63 }
    requires le_divisor { 1024 ≤ divisor }
    requires divisor_bound { divisor < 2 ^ 63 }
    ensures { Divided a divisor result.whole result.rest result.halvings }
{
    let most = room(divisor);
    let mut x = Quotient {
        whole: a / divisor,
        rest: a % divisor,
        halvings: 0,
    };
    // no `for`: how many divisions it takes depends on what each gives
    while x.whole < LEAST {
        if most < WORTH {
            x = next_digit(x, divisor);
        } else {
            x = more_digits(x, divisor, count(x.whole, most));
        }
    }
    x
}
