// The list (document 01, "Symptoms, conflict sets, verdict"): the faults whose tally is 0, and the verdict from a replay of the unchanged table.
ghost use Rattle.std.specs.Prelude.{◌≡◌, ◌≤◌, ◌<◌, length};
ghost use Rattle.shapes.specs.Edit.{filled};
ghost use Rattle.machine.specs.Limits.{numbers_most};
ghost use Rattle.machine.specs.Head.{numbers};
ghost use Rattle.diagnosis.specs.Diagnosis.{some_fails};
ghost use Rattle.memory.specs.Layout.{places_most, head_of, cells_of, cases};
ghost use Rattle.reading.specs.Reads.{is_listed_by, list_of, listed, list_call};
ghost use Rattle.reading.specs.Loops.{fails_at, verdict_by};

use diagnosis::{Verdict, is_failing};
use house::refusal::Refusal;
use machine::fault::is_fault;
use machine::table::Table;
use memory::form::check_form;
use memory::layout::Place;
use memory::view::Held;

// What listing answers: the verdict, and how many faults are listed.
#[derive(Clone, Copy)]
pub struct Listing {
    pub verdict: Verdict,
    pub count: usize,
}

// Whether a number is listed: a fault whose tally is 0.
fn is_listed(table: &Table<'_>, number: usize, tally: usize) -> bool
    ensures { result ≡ is_listed_by table.now.head table.now.cells.now number tally }
{
    is_fault(table, number) && tally == 0
}

// How many faults are listed.
fn count_listed(held: &Held<'_>, tallies: &[u16]) -> usize
    requires { numbers (head_of held.now.bytes.now) ≤ length tallies.now }
    ensures value { result ≡ length (list_of held.now.bytes.now tallies.now) }
    ensures upper_bound { result ≤ numbers_most }
{
    let table = held.table();
    let mut count = 0;
    for number in 0..table.head.numbers() {
        count += usize::from(is_listed(&table, number, usize::from(tallies[number])));
    }
    count
}

// Writes the listed faults, in rising number.
fn write_list(held: &Held<'_>, tallies: &[u16], out: &mut [u16])
    requires tallies_in_bounds { numbers (head_of held.now.bytes.now) ≤ length tallies.now }
    requires list_in_bounds { length (list_of held.now.bytes.now tallies.now) ≤ length out.old }
    ensures { out.new ≡ filled out.old 0 (list_of held.now.bytes.now tallies.now) }
{
    let table = held.table();
    let mut count = 0;
    for number in 0..table.head.numbers() {
        if is_listed(&table, number, usize::from(tallies[number])) {
            out[count] = number as u16;
            count += 1;
        }
    }
}

// Whether the case of a place fails, if it holds one.
fn is_failing_at(held: &Held<'_>, place: usize) -> bool
    requires { place < places_most }
    ensures { result ≡ fails_at held.now.bytes.now place }
{
    match held.run_at(place) {
        Some(run) => is_failing(&run),
        None => false,
    }
}

// Whether some held case fails.
pub fn is_some_failing(held: &Held<'_>) -> bool
    ensures { result ≡ some_fails (head_of held.now.bytes.now) (cells_of held.now.bytes.now) (cases held.now.bytes.now) }
{
    (0..Place::MOST).any(|place| is_failing_at(held, place))
}

// The verdict, from whether some case fails and how many faults are listed.
fn verdict_by(failing: bool, count: usize) -> Verdict
    ensures { result ≡ verdict_by failing count }
{
    match (failing, count) {
        (false, _) => Verdict::Clear,
        (true, 0) => Verdict::None,
        (true, _) => Verdict::Found,
    }
}

// The verdict, and the faults in rising number.
pub fn list(session: &[u8], tallies: &[u16], out: &mut [u16]) -> Result<Listing, Refusal>
    ensures { listed result out.new ≡ list_call session.now tallies.now out.old }
{
    check_form(session, tallies)?;
    let held = Held { bytes: session };
    let count = count_listed(&held, tallies);
    if out.len() < count {
        return Err(Refusal::Short(count));
    }
    write_list(&held, tallies, out);
    let verdict = verdict_by(is_some_failing(&held), count);
    Ok(Listing { verdict, count })
}
