// The writer: the image of the job in the lent buffers. The job is judged by place, part after part in the image's order, before anything
// is stored.
#![tactic(auto)]

mod joining;
mod judging;
mod lists;
mod putting;
mod storing;

ghost use Rattle.std.specs.Prelude.{◌≡◌, ◌*◌, length};
ghost use Rattle.refusals.specs.Refusals.{number_of};
ghost use Rattle.image.specs.Writer.{listed, write_refusal, write_length, write_left};
ghost use Rattle.writer.specs.Answers.{length_of};

use crate::lists::{CountedJob, SizedLists};
use image::{Given, Lists};
use refusals::Refusal;

// Writes the image of a job into `out`: the first entries of the lists, which have 64, 64, 4,096, 128, 8 and 31,936, as many as the
// counts say. A join is written for each weight above 0. Of `out` only the image's length is filled, and nothing where it is refused.
pub fn write(lists: Lists, given: Given, out: &mut [u8]) -> Result<usize, Refusal>
    ensures number { number_of result ≡ write_refusal given (listed lists.entry) (length out.old) }
    ensures length { length_of result ≡ write_length given (listed lists.entry) (length out.old) }
    ensures lent { out.new ≡ write_left given (listed lists.entry) out.old }
{
    judging::judge(lists, given)?;
    let job = SizedLists { given, lists };
    let joins = joining::count_joins(&job.table());
    let counted = CountedJob { job, joins };
    let length = counted.image_length();
    if out.len() < length {
        return Err(Refusal::Output);
    }
    counted.store(out);
    Ok(length)
}
