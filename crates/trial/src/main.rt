// The trial program: carries out the script on standard input by the real calls, and prints a line for each operation.
#![tactic(auto)]

// The operations, and how a script holds them.
mod operation;
// The memory lent to calls, answer buffers and sums.
mod lent;
// A writer of lines.
mod line;
// What calls answer, in words and numbers.
mod answers;
// The operations carried out.
mod calls;

use crate::calls::carry_out;
use crate::lent::Memory;
use crate::line::Line;
use crate::operation::Script;
use input::read_full;
use std::io;
use std::io::Write;

// The most bytes that a script has.
const MOST: usize = 65536;

// Prints that the script ends at a place.
fn stop(line: &mut impl Write, place: usize) -> io::Result<()> {
    writeln!(line, "STOP {place}")?;
    line.flush()
}

// Carries out a script's operations in order, and prints a line for each.
fn run(line: &mut impl Write, bytes: &[u8]) -> io::Result<()> {
    let mut memory = Memory::new();
    let mut script = Script { rest: bytes };
    while !script.rest.is_empty() {
        let place = bytes.len() - script.rest.len();
        let Some(operation) = script.operation() else {
            return stop(line, place);
        };
        write!(line, "{}", operation.name())?;
        carry_out(line, &mut memory, operation)?;
        writeln!(line)?;
        line.flush()?;
    }
    Ok(())
}

fn main(rt: HostRuntime) -> io::Result<()> {
    // Room for a script and one byte more, which shows that it is too long.
    let mut room = [0; MOST + 1];
    let count = read_full(&mut rt.reader(), &mut room)?;
    let mut line = Line::new(&rt);
    if MOST < count {
        return stop(&mut line, MOST);
    }
    run(&mut line, &room[..count])
}
