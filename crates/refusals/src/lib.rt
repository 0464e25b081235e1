// Why a call is refused: the causes, each with its number, and the number of an answer that may be a refusal.
#![tactic(auto)]

ghost use Rattle.std.specs.Prelude.{◌≡◌};
ghost use Rattle.refusals.specs.Refusals.{number_by, number_of};

// The causes of refusal, each with its number.
#[derive(Clone, Copy, Debug, PartialEq, Eq)]
pub enum Refusal {
    // n, or rows × columns, outside 2 to 64
    Zones = 1,
    // a lent list not of its exact length
    Length = 2,
    // a value beyond 100,000 in size
    Value = 3,
    // a weight above 9, or 0 in an image's join
    Weight = 4,
    // a weight on the diagonal
    Diagonal = 5,
    // the weights add up to 0
    Weightless = 6,
    // the values do not vary
    Spreadless = 7,
    // a category above 7
    Category = 8,
    // a class above 8
    Class = 9,
    // a coordinate beyond 30,000 in size
    Coordinate = 10,
    // two zones at one place
    Place = 11,
    // bands that do not rise from above 0, or too many, or too few, or without places
    Bands = 12,
    // a shuffle that lacks some zone number
    Shuffle = 13,
    // the image ends inside a section or its count
    Cut = 14,
    // a count in an image that neither 1 nor 12 is about
    Count = 15,
    // joins that do not rise, or an end not below n
    Joins = 16,
    // bytes after the last section
    Trailing = 17,
    // a divisor below 1, or a number beyond the limit
    Ratio = 18,
    // the output is shorter than the image
    Output = 19,
    // a desk number above 3
    Desk = 24,
}

// The number of a cause.
// A conversion under a name of its own: a public function stays, by a rule of the project, and a From beside it would say the same twice.
pub fn number_by(refusal: Refusal) -> u8
    ensures { result ≡ number_by refusal }
{
    // no From leads from an enum to its number
    refusal as u8
}

// The number that an answer is handed out with: 0 where nothing is refused.
pub fn number_of<T: Copy>(answer: Result<T, Refusal>) -> u8
    ensures { result ≡ number_of answer }
{
    match answer {
        Ok(_) => 0,
        Err(refusal) => number_by(refusal),
    }
}
