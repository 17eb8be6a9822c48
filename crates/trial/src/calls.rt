// Carries out operations, each of which puts in the line what follows its name.
use crate::answers::{
    put_answer, put_audited, put_each, put_listing, put_no, put_set, put_symptoms, put_written,
};
use crate::lent::{Memory, bytes, numbers, sum};
use crate::operation::Operation;
use judge::judge;
use product::{eight_litre, five_litre};
use reading::audit::audit;
use reading::list::list;
use report::conflicts::{candidates, conflict_set, symptoms};
use report::save::save;
use retest::{pick, pick_refusal};
use session::calls::{add, amend, load, start, withdraw};
use std::io;
use std::io::Write;

// Lists by way of an answer buffer, of which so much is lent; the next four write so.
fn run_list(line: &mut impl Write, memory: &mut Memory, room: usize) -> io::Result<()> {
    let (session, tallies) = memory.lent();
    let mut out = numbers(room);
    let answer = list(session, tallies, out.lent());
    put_listing(line, answer, &out.entries)
}

fn run_save(line: &mut impl Write, memory: &mut Memory, room: usize) -> io::Result<()> {
    let (session, tallies) = memory.lent();
    let mut out = bytes(room);
    let answer = save(session, tallies, out.lent());
    put_written(line, answer, &out.entries)
}

fn run_conflict(
    line: &mut impl Write,
    memory: &mut Memory,
    place: usize,
    room: usize,
) -> io::Result<()> {
    let (session, tallies) = memory.lent();
    let mut out = bytes(room);
    let answer = conflict_set(session, tallies, place, out.lent());
    put_set(line, answer, &out.entries)
}

fn run_candidates(line: &mut impl Write, memory: &mut Memory, room: usize) -> io::Result<()> {
    let (session, tallies) = memory.lent();
    let mut out = bytes(room);
    let answer = candidates(session, tallies, out.lent());
    put_set(line, answer, &out.entries)
}

// Writes the built-in table that a number names.
fn run_table(line: &mut impl Write, product: u8, room: usize) -> io::Result<()> {
    let mut out = bytes(room);
    let answer = if product == 0 {
        five_litre(out.lent())
    } else {
        eight_litre(out.lent())
    };
    put_written(line, answer, &out.entries)
}

// Puts the bytes of the case picked, or why there is none.
fn run_retest(
    line: &mut impl Write,
    first: &[u8],
    retest: &[u8],
    position: usize,
) -> io::Result<()> {
    let case = pick(first, retest, position);
    if case.is_empty() {
        return put_no(line, pick_refusal(first, retest, position), 0);
    }
    write!(line, " OK")?;
    put_each(line, case)
}

// Carries out an operation.
pub fn carry_out(
    line: &mut impl Write,
    memory: &mut Memory,
    operation: Operation<'_>,
) -> io::Result<()> {
    match operation {
        Operation::Lend { bytes, numbers } => {
            memory.session.wanted = bytes.into();
            memory.tallies.wanted = numbers.into();
            let bytes = memory.session.count();
            let numbers = memory.tallies.count();
            write!(line, " {bytes} {numbers}")
        }
        Operation::Start { table } => {
            let (session, tallies) = memory.lent();
            put_answer(line, start(session, tallies, table))
        }
        Operation::Add { inputs, outputs } => {
            let (session, tallies) = memory.lent();
            put_answer(line, add(session, tallies, inputs, outputs))
        }
        Operation::Amend {
            place,
            inputs,
            outputs,
        } => {
            let (session, tallies) = memory.lent();
            let answer = amend(session, tallies, place as usize, inputs, outputs);
            put_answer(line, answer)
        }
        Operation::Withdraw { place } => {
            let (session, tallies) = memory.lent();
            put_answer(line, withdraw(session, tallies, place as usize))
        }
        Operation::Load { record } => {
            let (session, tallies) = memory.lent();
            put_answer(line, load(session, tallies, record))
        }
        Operation::Save { room } => run_save(line, memory, room.into()),
        Operation::List { room } => run_list(line, memory, room.into()),
        Operation::Audit => {
            let (session, tallies) = memory.lent();
            put_audited(line, audit(session, tallies))
        }
        Operation::Symptoms { place } => {
            let (session, tallies) = memory.lent();
            put_symptoms(line, symptoms(session, tallies, place as usize))
        }
        Operation::Conflict { place, room } => run_conflict(
            line,
            memory,
            place as usize,
            room.into(),
        ),
        Operation::Candidates { room } => run_candidates(line, memory, room.into()),
        Operation::Poke { place, value } => {
            if let Some(byte) = memory.session.entries.get_mut(usize::from(place)) {
                *byte = value;
            }
            write!(line, " {place} {value}")
        }
        Operation::Tally { place, value } => {
            if let Some(number) = memory.tallies.entries.get_mut(usize::from(place)) {
                *number = value;
            }
            write!(line, " {place} {value}")
        }
        Operation::Sum => {
            let bytes = &memory.session.entries;
            let numbers = &memory.tallies.entries;
            write!(line, " {} {}", sum(bytes), sum(numbers))
        }
        Operation::Table { product, room } => run_table(line, product, room.into()),
        Operation::Retest {
            first,
            retest,
            position,
        } => run_retest(line, first, retest, position as usize),
        Operation::Judge {
            table,
            record,
            number,
        } => {
            let answer = judge(table, record, number);
            write!(line, " OK {answer}")
        }
    }
}
