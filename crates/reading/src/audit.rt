// The audit (document 01, "Session memory"): whether every tally is true, by counting each afresh.
ghost use Rattle.std.specs.Prelude.{◌≡◌, ◌≤◌, ◌<◌, length};
ghost use Rattle.shapes.specs.First.{found};
ghost use Rattle.machine.specs.Head.{numbers};
ghost use Rattle.diagnosis.specs.Diagnosis.{tally};
ghost use Rattle.memory.specs.Layout.{places_most, head_of, cells_of, cases_at, cases};
ghost use Rattle.reading.specs.Reads.{false_tally, audit_call};

use diagnosis::is_missed;
use house::refusal::Refusal;
use memory::form::check_form;
use memory::layout::Place;
use memory::view::Held;

// 1 where a number's machine misses the case of a place, 0 where it does not or the place is free.
fn missed_at(held: &Held<'_>, place: usize, number: usize) -> usize
    requires place_bound { place < places_most }
    requires number_bound { number < numbers (head_of held.now.bytes.now) }
    ensures value { result ≡ tally (head_of held.now.bytes.now) (cells_of held.now.bytes.now) (cases_at held.now.bytes.now place) number }
    ensures upper_bound { result ≤ 1 }
{
    match held.run_at(place) {
        Some(run) => usize::from(is_missed(&run, number)),
        None => 0,
    }
}

// How many held cases a number's machine misses, counted afresh.
fn tally_afresh(held: &Held<'_>, number: usize) -> usize
    requires { number < numbers (head_of held.now.bytes.now) }
    ensures { result ≡ tally (head_of held.now.bytes.now) (cells_of held.now.bytes.now) (cases held.now.bytes.now) number }
{
    let mut count = 0;
    for place in 0..Place::MOST {
        count += missed_at(held, place, number);
    }
    count
}

// The lowest number whose tally is false, if there is one.
fn first_false(held: &Held<'_>, tallies: &[u16]) -> Option<usize>
    requires { numbers (head_of held.now.bytes.now) ≤ length tallies.now }
    ensures { result ≡ found (false_tally held.now.bytes.now tallies.now) (numbers (head_of held.now.bytes.now)) }
{
    (0..held.table().head.numbers()).find(|number| tally_afresh(held, *number)
        != usize::from(tallies[*number]))
}

// The lowest number whose tally is false; none where every tally is true.
pub fn audit(session: &[u8], tallies: &[u16]) -> Result<Option<usize>, Refusal>
    ensures { result ≡ audit_call session.now tallies.now }
{
    check_form(session, tallies)?;
    let held = Held { bytes: session };
    Ok(first_false(&held, tallies))
}
