// Whether a session is well-formed (document 01, "Session memory", Well-formed), over any bytes.
ghost use Rattle.std.specs.Prelude.{◌≡◌, true, ◌+◌, ◌≤◌, ◌<◌, length};
ghost use Rattle.shapes.specs.First.{zeros};
ghost use Rattle.shapes.specs.Refusals.{ruling};
ghost use Rattle.house.specs.Refusal.{checked};
ghost use Rattle.machine.specs.Limits.{steps_most};
ghost use Rattle.memory.specs.Layout.{places_most, session_size, tallies_size, steps_of};
ghost use Rattle.memory.specs.Form.{good_table, zeros_after, good_place, good_places, most_for, good_tallies, well_formed, room_rules, form_rules};

use crate::layout::{PLACES_AT, Place, SESSION, SESSION_CELLS_AT, TALLIES, count_held, head_of};
use house::refusal::Refusal;
use machine::case::is_case;
use machine::cell::first_bad;
use machine::head::Head;
use machine::replay::Replay;

// Whether so many bytes from a place on are 0.
fn is_zero(session: &[u8], at: usize, count: usize) -> bool
    requires { at + count ≤ length session.now }
    ensures { result ≡ zeros session.now at count }
{
    session[at..at + count].iter().all(|byte| *byte == 0)
}

// Whether the table part is sound.
pub fn is_table(session: &[u8]) -> bool
    requires { session_size ≤ length session.now }
    ensures { result ≡ good_table session.now }
{
    let named = head_of(session);
    let Some(head) = Head::new(named.states, named.inputs, named.outputs) else {
        return false;
    };
    let count = head.cells();
    first_bad(head, &session[SESSION_CELLS_AT..PLACES_AT]).is_none()
        && is_zero(
            session,
            SESSION_CELLS_AT + 2 * count,
            2 * Head::CELLS - 2 * count,
        )
}

// Whether what a place has after its inputs and after its outputs is zero.
fn is_clean(session: &[u8], place: usize) -> bool
    requires session_size_in_bounds { (session_size ≤ length session.now) × (place < places_most) }
    requires place_bound { steps_of session.now place ≤ steps_most }
    ensures { result ≡ zeros_after session.now place }
{
    let here = Place::of(session, place);
    let rest = Replay::STEPS - here.steps;
    is_zero(session, here.at + 1 + here.steps, rest)
        && is_zero(session, here.at + 1 + Replay::STEPS + here.steps, rest)
}

// Whether a place is free and all zero, or holds a case that can be run, with zeros after.
fn is_place(session: &[u8], place: usize) -> bool
    requires { (session_size ≤ length session.now) × (place < places_most) }
    ensures { result ≡ good_place session.now place }
{
    let here = Place::of(session, place);
    let steps = here.steps;
    let inputs = here.at + 1;
    let outputs = inputs + Replay::STEPS;
    steps <= Replay::STEPS
        && is_clean(session, place)
        && (steps == 0
            || is_case(
                head_of(session),
                &session[inputs..inputs + steps],
                &session[outputs..outputs + steps],
            ))
}

// Whether every place is.
fn are_places(session: &[u8]) -> bool
    requires { session_size ≤ length session.now }
    ensures { result ≡ good_places session.now }
{
    (0..Place::MOST).all(|place| is_place(session, place))
}

// The most that a tally may be, with so many numbers in use and cases held.
fn tally_most(number: usize, numbers: usize, held: usize) -> usize
    ensures { result ≡ most_for number numbers held }
{
    if number < numbers {
        return held;
    }
    0
}

// Whether no tally is above its most.
fn are_tallies(session: &[u8], tallies: &[u16]) -> bool
    requires session_size_in_bounds { (session_size ≤ length session.now) × (tallies_size ≤ length tallies.now) }
    requires session_value { good_table session.now ≡ true }
    ensures { result ≡ good_tallies session.now tallies.now }
{
    let numbers = head_of(session).numbers();
    let held = count_held(session);
    (0..TALLIES).all(|number| usize::from(tallies[number]) <= tally_most(number, numbers, held))
}

// Whether a session is well-formed.
pub fn is_formed(session: &[u8], tallies: &[u16]) -> bool
    requires { (session_size ≤ length session.now) × (tallies_size ≤ length tallies.now) }
    ensures { result ≡ well_formed session.now tallies.now }
{
    is_table(session) && are_places(session) && are_tallies(session, tallies)
}

// The refusal of a session or tallies too short.
#[tactic(auto, unfolding(crate::specs::Form::room_rules, shapes::specs::Refusals::ruling))]
pub fn check_room(session: &[u8], tallies: &[u16]) -> Result<(), Refusal>
    ensures { result ≡ checked (ruling (room_rules session.now tallies.now)) }
{
    if session.len() < SESSION || tallies.len() < TALLIES {
        return Err(Refusal::Short(0));
    }
    Ok(())
}

// The refusal of a session that is too short or not well-formed.
pub fn check_form(session: &[u8], tallies: &[u16]) -> Result<(), Refusal>
    ensures { result ≡ checked (ruling (form_rules session.now tallies.now)) }
{
    check_room(session, tallies)?;
    if !is_formed(session, tallies) {
        return Err(Refusal::Damaged);
    }
    Ok(())
}
