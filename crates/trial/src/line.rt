// A writer of lines: what is put is kept in a buffer, which is written out where it is full and when it is flushed.
ghost use Rattle.std.specs.Prelude.{◌≤◌};
ghost use Rattle.trial.specs.declared.line.TheConstants.{ROOM};

use std::io;
use std::io::Write;

// How much of a line is put together before it is written.
const ROOM: usize = 4096;

#[derive(Drop)]
pub struct Line<'a, P> {
    rt: &'a P,
    buffer: [u8; ROOM],
    filled: usize,
    ghost inside: { filled ≤ ROOM },
}

impl<'a, P> Line<'a, P> {
    pub fn new(rt: &'a P) -> Line<'a, P> {
        Line {
            rt,
            buffer: [0; ROOM],
            filled: 0,
        }
    }
}

impl<P: Print> Write for Line<'_, P> {
    fn write(&mut self, bytes: &[u8]) -> io::Result<usize> {
        self.write_all(bytes)?;
        Ok(bytes.len())
    }

    // What fits is put at once, which words and numbers nearly always do.
    fn write_all(&mut self, bytes: &[u8]) -> io::Result<()> {
        if bytes.len() <= ROOM - self.filled {
            let end = self.filled + bytes.len();
            self.buffer[self.filled..end].copy_from_slice(bytes);
            self.filled = end;
            return Ok(());
        }
        let mut place = self.filled;
        for &byte in bytes {
            if place == ROOM {
                self.rt.write_all(&self.buffer)?;
                place = 0;
            }
            self.buffer[place] = byte;
            place += 1;
        }
        self.filled = place;
        Ok(())
    }

    fn flush(&mut self) -> io::Result<()> {
        self.rt.write_all(&self.buffer[..self.filled])?;
        self.filled = 0;
        Ok(())
    }
}
