// The memory of a trial, answer buffers, which are as large, and sums of both.
ghost use Rattle.std.specs.Prelude.{◌≤◌};

use memory::layout::{SESSION, TALLIES};

// How many bytes and how many numbers there are.
const BYTES: usize = 9000;

const NUMBERS: usize = 8400;

// A sum is taken times FACTOR for each entry, and is the rest by MODULUS.
const FACTOR: u32 = 31;

const MODULUS: u32 = 65521;

// Entries, of which the first are lent to a call: `wanted` of them, or all that there are.
#[derive(Drop)]
pub struct Buffer<T, const N: usize> {
    pub entries: [T; N],
    pub wanted: usize,
}

impl<T: Copy, const N: usize> Buffer<T, N> {
    // How many entries are lent.
    pub fn count(&self) -> usize
        ensures { result ≤ N }
    {
        self.wanted.min(N)
    }

    pub fn lent(&mut self) -> &mut [T] {
        let count = self.count();
        &mut self.entries[..count]
    }
}

pub fn bytes(wanted: usize) -> Buffer<u8, BYTES> {
    Buffer {
        entries: [165; BYTES],
        wanted,
    }
}

pub fn numbers(wanted: usize) -> Buffer<u16, NUMBERS> {
    Buffer {
        entries: [42405; NUMBERS],
        wanted,
    }
}

// The session's bytes and the tallies.
#[derive(Drop)]
pub struct Memory {
    pub session: Buffer<u8, BYTES>,
    pub tallies: Buffer<u16, NUMBERS>,
}

impl Memory {
    pub fn new() -> Memory {
        Memory {
            session: bytes(SESSION),
            tallies: numbers(TALLIES),
        }
    }

    // What is lent to a call.
    pub fn lent(&mut self) -> (&mut [u8], &mut [u16]) {
        (self.session.lent(), self.tallies.lent())
    }
}

// A sum with one entry more.
fn summed(sum: u16, entry: u16) -> u16 {
    ((FACTOR * u32::from(sum) + u32::from(entry)) % MODULUS) as u16
}

// The sum of bytes or of numbers.
pub fn sum<T: Copy + Into<u16>>(entries: &[T]) -> u16 {
    entries
        .iter()
        .fold(1, |sum, &entry| summed(sum, entry.into()))
}
