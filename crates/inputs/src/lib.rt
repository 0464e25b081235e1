// The input of a program: as much of it as there is room for.
#![tactic(auto)]

ghost use Rattle.std.specs.Prelude.{◌≡◌, ◌≤◌, length, take, IfOk, IfSome};
ghost use Rattle.std.specs.Io.KnownBytes.{Consumes};

use std::io;
use std::io::Read;

// Reads until the room is full or the input ends, whatever the sizes of the single reads, and answers how many bytes were read.
pub fn read_full<R: Read>(reader: &mut R, room: &mut [u8]) -> io::Result<usize>
    ensures upper_bound { IfOk result (λ end. end ≤ length room.new) }
    ensures bytes { IfOk result (λ end. IfSome (R.remaining reader.old)
        (λ bytes. take end room.new ≡ take (length room.old) bytes)) }
    ensures left { IfOk result
        (λ end. Consumes (R.remaining reader.old) (R.remaining reader.new) (take end room.new)) }
{
    let mut end: usize = 0;
    // no `for`: how many reads it takes, the reader decides
    while end < room.len() {
        let more = reader.read(&mut room[end..])?;
        if more == 0 {
            return Ok(end);
        }
        end += more;
    }
    Ok(end)
}
