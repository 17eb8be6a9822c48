// The listing program (document 01, "The listing program"): reads a table file followed at once by a record from standard input, and
// prints the verdict, how many faults are listed, and each of them; or the refusal.
#![tactic(auto)]

ghost use Rattle.std.specs.Prelude.{◌≡◌, ℕ, ◌<◌, length, get_or};
ghost use Rattle.machine.specs.Head.{HeadIn, numbers};
ghost use Rattle.house.specs.File.{first_end};

use diagnosis::Verdict;
use house::file::REST;
use house::refusal::Refusal;
use input::read_full;
use machine::fault::{Fault, Kind};
use machine::head::Head;
use memory::layout::{SESSION, TALLIES, head_of};
use reading::list::list;
use session::calls::{load, start};
use std::io;

// The most bytes that an input has.
const MOST: usize = 16384;

fn print_refusal(rt: &impl Print, refusal: Refusal) -> io::Result<()> {
    println!(rt; "REFUSED {}", refusal.number())
}

// What a kind of fault is called.
fn kind_name(kind: Kind) -> &'static str {
    match kind {
        Kind::Output => "O",
        Kind::Transfer => "T",
    }
}

// Prints a number's fault: its state, input, kind and wrong value.
fn print_fault(rt: &impl Print, head: Head, number: usize) -> io::Result<()>
    requires head_in { HeadIn head }
    requires number_bound { number < numbers head }
{
    let fault = Fault::numbered(head, number);
    let state = fault.cell / head.inputs;
    let input = fault.cell % head.inputs;
    println!(rt;
        "{number} {state} {input} {} {}",
        kind_name(fault.kind),
        fault.value
    )
}

// Prints a list of the faults of a table with a head.
fn print_list(rt: &impl Print, head: Head, verdict: Verdict, faults: &[u16]) -> io::Result<()>
    requires head_in { HeadIn head }
    requires by_index { (i : ℕ) → i < length faults.now → get_or faults.now i 0 < numbers head }
{
    println!(rt; "{verdict} {}", faults.len())?;
    for &number in faults {
        print_fault(rt, head, usize::from(number))?;
    }
    Ok(())
}

// Lists the faults of a session.
fn show_list(rt: &impl Print, session: &[u8], tallies: &[u16]) -> io::Result<()> {
    let mut numbers = [0; TALLIES];
    match list(session, tallies, &mut numbers) {
        Ok(listing) => print_list(
            rt,
            head_of(session),
            listing.verdict,
            &numbers[..listing.count],
        ),
        Err(refusal) => print_refusal(rt, refusal),
    }
}

// Where the table file ends: where its length field says, or with the input if that is earlier.
fn table_end(input: &[u8]) -> usize
    ensures { result ≡ first_end input.now }
{
    let [_, high, low, ..] = input else {
        return input.len();
    };
    (REST + usize::from(u16::from_be_bytes([*high, *low]))).min(input.len())
}

// Lists what a table file and the record after it come to.
fn list_input(rt: &impl Print, input: &[u8]) -> io::Result<()> {
    let mut session = [0; SESSION];
    let mut tallies = [0; TALLIES];
    let (table, record) = input.split_at(table_end(input));
    if let Err(refusal) = start(&mut session, &mut tallies, table) {
        return print_refusal(rt, refusal);
    }
    if let Err(refusal) = load(&mut session, &mut tallies, record) {
        return print_refusal(rt, refusal);
    }
    show_list(rt, &session, &tallies)
}

fn main(rt: HostRuntime) -> io::Result<()> {
    // Room for an input and one byte more, which shows that it is too long.
    let mut room = [0; MOST + 1];
    let count = read_full(&mut rt.reader(), &mut room)?;
    if MOST < count {
        return print_refusal(&rt, Refusal::Length);
    }
    list_input(&rt, &room[..count])
}
