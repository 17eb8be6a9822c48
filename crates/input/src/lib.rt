// Reading of a whole input into lent memory.
#![tactic(auto)]

ghost use Rattle.std.specs.Prelude.{ℕ, ◌<◌, ◌≤◌, length, take, IfOk, OnErr};
ghost use Rattle.std.specs.Io.KnownBytes.{Consumes, IsAtEnd};

use std::io;
use std::io::Read;

// Reads until the room is full or the input ends, and answers how many bytes it put at the room's beginning. Where a read fails, what had been
// read stands there.
pub fn read_full<R: Read>(input: &mut R, room: &mut [u8]) -> io::Result<usize>
    ensures in_bounds { IfOk result (λ count. count ≤ length room.new) }
    ensures bytes { IfOk result (λ count. Consumes (R.remaining input.old) (R.remaining input.new) (take count room.new)) }
    ensures failed { OnErr result ((count : ℕ) × (count ≤ length room.new)
        × Consumes (R.remaining input.old) (R.remaining input.new) (take count room.new)) }
    ensures end { IfOk result (λ count. count < length room.new → IsAtEnd (R.remaining input.new)) }
{
    let mut count = 0;
    while count < room.len() {
        let more = input.read(&mut room[count..])?;
        if more == 0 {
            break;
        }
        count += more;
    }
    Ok(count)
}
