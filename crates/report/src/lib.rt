// The report of an image, as the report program prints it: a layer above the account and the image, which relies on their promises alone.
#![tactic(auto)]

mod lines;
mod putting;
mod reading;
mod working;

ghost use Rattle.std.specs.Prelude.{◌≡◌};
ghost use Rattle.refusals.specs.Refusals.{number_of};
ghost use Rattle.report.specs.Text.{length_in, print_refusal, print_length, page_left};
ghost use Rattle.report.specs.Text.{line_refusal, line_length, line_left};

use putting::Line;
use refusals::Refusal;

// What a report goes into, with room for the longest.
type Page = [u8; 16384];

// Puts the text of an image's report, the lines of its job, at the front of `page`, which has 16,384 places, and answers its length. Where
// the page has another length, or the image is refused, the page is left as it was.
pub fn report(image: &[u8], page: &mut [u8]) -> Result<usize, Refusal>
    ensures number { number_of result ≡ print_refusal image.now page.old }
    ensures length { length_in result ≡ print_length image.now page.old }
    ensures page { page.new ≡ page_left image.now page.old }
{
    let page = page.as_mut_array().ok_or(Refusal::Length)?;
    reading::put_report(page, image)
}

// Puts the line of an image that is refused by that number, `refused` and the number, at the front of such a page, and answers its length.
// Where the page has another length it is left as it was. With a `Refusal` a caller could no longer pass
// any number, and a public parameter stays.
pub fn refusal(number: u8, page: &mut [u8]) -> Result<usize, Refusal>
    ensures number { number_of result ≡ line_refusal page.old }
    ensures length { length_in result ≡ line_length number page.old }
    ensures page { page.new ≡ line_left number page.old }
{
    let line = Line {
        word: b"refused",
        numbers: &[i64::from(number)],
    };
    let page: &mut Page = page.as_mut_array().ok_or(Refusal::Length)?;
    Ok(putting::put_line(page, 0, &line))
}
