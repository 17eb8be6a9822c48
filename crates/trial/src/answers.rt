// What calls answer, put in a line as words and numbers, each after a blank.
use crate::lent::sum;
use house::refusal::Refusal;
use machine::head::Head;
use machine::replay::Symptoms;
use reading::list::Listing;
use std::fmt::Display;
use std::io;
use std::io::Write;

// Puts each entry.
pub fn put_each<T: Display>(line: &mut impl Write, entries: &[T]) -> io::Result<()> {
    for entry in entries {
        // Put apart, the blank goes by no formatter: lists and cases are long.
        line.write_all(b" ")?;
        write!(line, "{entry}")?;
    }
    Ok(())
}

// Puts a refusal's number and what it carries.
pub fn put_no(line: &mut impl Write, number: usize, carried: usize) -> io::Result<()> {
    write!(line, " NO {number} {carried}")
}

// Puts a refusal.
fn put_refusal(line: &mut impl Write, refusal: Refusal) -> io::Result<()> {
    put_no(line, refusal.number(), refusal.carried())
}

// Puts what a call answers.
pub fn put_answer(line: &mut impl Write, answer: Result<usize, Refusal>) -> io::Result<()> {
    match answer {
        Ok(number) => write!(line, " OK {number}"),
        Err(refusal) => put_refusal(line, refusal),
    }
}

// Puts the sum of an answer buffer.
fn put_sum<T: Copy + Into<u16>>(line: &mut impl Write, buffer: &[T]) -> io::Result<()> {
    write!(line, " # {}", sum(buffer))
}

// Puts what a list answers: a verdict, the count and the numbers listed.
pub fn put_listing(
    line: &mut impl Write,
    answer: Result<Listing, Refusal>,
    numbers: &[u16],
) -> io::Result<()> {
    match answer {
        Ok(Listing { verdict, count }) => {
            write!(line, " OK {verdict} {count}")?;
            put_each(line, &numbers[..count.min(numbers.len())])?;
        }
        Err(refusal) => put_refusal(line, refusal)?,
    }
    put_sum(line, numbers)
}

// Puts what an audit answers.
pub fn put_audited(
    line: &mut impl Write,
    answer: Result<Option<usize>, Refusal>,
) -> io::Result<()> {
    match answer {
        Ok(None) => write!(line, " OK TRUE"),
        Ok(Some(number)) => write!(line, " OK FALSE {number}"),
        Err(refusal) => put_refusal(line, refusal),
    }
}

// Puts what the symptoms of a place are: their count, and the first.
pub fn put_symptoms(line: &mut impl Write, answer: Result<Symptoms, Refusal>) -> io::Result<()> {
    match answer {
        Ok(Symptoms { count, first }) => write!(line, " OK {count} {first}"),
        Err(refusal) => put_refusal(line, refusal),
    }
}

// Puts the places of the bytes that are 1.
fn put_ones(line: &mut impl Write, bytes: &[u8]) -> io::Result<()> {
    for (place, &byte) in bytes.iter().enumerate() {
        if byte == 1 {
            write!(line, " {place}")?;
        }
    }
    Ok(())
}

// Puts what a call that writes bytes answers.
pub fn put_written(
    line: &mut impl Write,
    answer: Result<usize, Refusal>,
    bytes: &[u8],
) -> io::Result<()> {
    put_answer(line, answer)?;
    put_sum(line, bytes)
}

// Puts what a call that writes a set of cells answers: the cells.
pub fn put_set(
    line: &mut impl Write,
    answer: Result<usize, Refusal>,
    bytes: &[u8],
) -> io::Result<()> {
    match answer {
        Ok(_) => {
            write!(line, " OK")?;
            put_ones(line, &bytes[..Head::CELLS.min(bytes.len())])?;
        }
        Err(refusal) => put_refusal(line, refusal)?,
    }
    put_sum(line, bytes)
}
