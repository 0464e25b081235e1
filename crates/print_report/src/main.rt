// The report program: reads an image from standard input, at most its first 44,909 bytes, and writes its report to standard output.
#![tactic(auto)]

ghost use Rattle.std.specs.Prelude.{◌≡◌, ◌≤◌, length, take, OnOk, IfSome};
ghost use Rattle.std.specs.Io.KnownBytes.{Appends};
ghost use Rattle.refusals.specs.Refusals.{number_by};
ghost use Rattle.report.specs.Text.{refusal_line, report_text, Decides};

use refusals::Refusal;
use std::io;
use std::io::{Read, Write};

// Room for as many bytes as decide the report of any image, so that what is not read could not change it.
fn input_room() -> [u8; 44909]
    ensures value { length result ≡ 44909 }
    ensures decides { Decides (length result) }
{
    rooms::room()
}

// The text of an image at the front of the page, and its length: its report, or `refused` and the number.
fn print_text(image: &[u8], page: &mut [u8; 16384]) -> usize
    ensures upper_bound { result ≤ length page.new }
    ensures page_after { take result page.new ≡ report_text image.now }
{
    match report::report(image, page) {
        Ok(length) => length,
        Err(refusal) => print_refusal(refusal, page),
    }
}

// The line of a refusal at the front of the page, and its length.
fn print_refusal(refusal: Refusal, page: &mut [u8; 16384]) -> usize
    ensures upper_bound { result ≤ length page.new }
    ensures page_after { take result page.new ≡ refusal_line (number_by refusal) }
{
    report::refusal(refusals::number_by(refusal), page).unwrap()
}

// Reads an image and writes its report.
fn run<R: Read, W: Write>(reader: &mut R, writer: &mut W) -> io::Result<()>
    ensures { OnOk result (IfSome (R.remaining reader.old)
        (λ image. Appends (W.contents writer.old) (W.contents writer.new) (report_text image))) }
{
    let mut input = input_room();
    let mut page: [u8; 16384] = rooms::room();
    let end = inputs::read_full(reader, &mut input)?;
    let length = print_text(&input[..end], &mut page);
    writer.write_all(&page[..length])
}

fn main(rt: HostRuntime) -> io::Result<()> {
    run(&mut rt.stdin(), &mut rt.stdout())
}
