// Cases stored in a place, places and tallies cleared.
ghost use Rattle.std.specs.Prelude.{◌≡◌, ◌+◌, ◌≤◌, ◌<◌, length, get_or};
ghost use Rattle.machine.specs.Limits.{steps_most};
ghost use Rattle.machine.specs.Case.{as_case, no_case};
ghost use Rattle.memory.specs.Layout.{places_most, session_size, tallies_size};
ghost use Rattle.memory.specs.Store.{placed, started, cleared};
ghost use Rattle.memory.specs.Loops.{steps_stored};

use crate::layout::{PLACES_AT, Place, SESSION, TALLIES};
use house::file::REST;
use machine::replay::Replay;

// The byte at a place of a slice, 0 past its end.
fn byte_or_zero(from: &[u8], at: usize) -> u8
    ensures { result ≡ get_or from.now at 0 }
{
    from.get(at).copied().unwrap_or(0)
}

// Stores a case in a place, with zeros after; with no inputs and no outputs it clears the place.
pub fn store_case(session: &mut [u8], place: usize, inputs: &[u8], outputs: &[u8])
    requires session_size_in_bounds { (session_size ≤ length session.old) × (place < places_most) }
    requires inputs_len_bound { (length inputs.now ≤ steps_most) × (length outputs.now ≡ length inputs.now) }
    ensures { session.new ≡ placed session.old place (as_case inputs.now outputs.now) }
{
    let at = PLACES_AT + Place::SIZE * place;
    session[at] = inputs.len() as u8;
    store_steps(session, at + 1, inputs);
    store_steps(session, at + 1 + Replay::STEPS, outputs);
}

// Clears a place.
pub fn clear_place(session: &mut [u8], place: usize)
    requires { (session_size ≤ length session.old) × (place < places_most) }
    ensures { session.new ≡ placed session.old place no_case }
{
    store_case(session, place, &[], &[]);
}

// Stores the inputs or the outputs of a case, with zeros after.
fn store_steps(session: &mut [u8], at: usize, from: &[u8])
    requires { at + steps_most ≤ length session.old }
    ensures { session.new ≡ steps_stored from.now at session.old }
{
    for i in 0..Replay::STEPS {
        session[at + i] = byte_or_zero(from, i);
    }
}

// Copies a table file's table into a session and clears its places.
pub fn store_table(session: &mut [u8], file: &[u8])
    requires { session_size ≤ length session.old }
    ensures { session.new ≡ started session.old file.now }
{
    for i in 0..SESSION {
        session[i] = byte_or_zero(file, REST + i);
    }
}

// Clears the tallies.
pub fn clear_tallies(tallies: &mut [u16])
    requires { tallies_size ≤ length tallies.old }
    ensures { tallies.new ≡ cleared tallies.old }
{
    tallies[..TALLIES].fill(0);
}
