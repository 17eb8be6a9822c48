// Where things stand in the session's bytes: n, k, m; the cells; 64 places.
ghost use Rattle.std.specs.Prelude.{◌≡◌, ◌≤◌, ◌<◌, length};
ghost use Rattle.shapes.specs.First.{found};
ghost use Rattle.memory.specs.Layout.{places_most, session_size, head_of, free_place, cases};
ghost use Rattle.memory.specs.Loops.{read_place};

use machine::fault::Fault;
use machine::head::Head;
use machine::replay::Replay;
use shapes::byte;

// Where the cells stand.
pub const SESSION_CELLS_AT: usize = 3;

// Where the places stand.
pub const PLACES_AT: usize = SESSION_CELLS_AT + 2 * Head::CELLS;

// How many bytes a session needs, and how many tallies.
pub const SESSION: usize = PLACES_AT + Place::MOST * Place::SIZE;

pub const TALLIES: usize = Fault::NUMBERS;

// A place for a case: where it stands, and its length byte.
#[derive(Clone, Copy)]
pub struct Place {
    pub at: usize,
    pub steps: usize,
}

impl Place {
    pub const MOST: usize = 64;

    pub const SIZE: usize = 1 + 2 * Replay::STEPS;

    // A place of a session.
    pub fn of(session: &[u8], place: usize) -> Place
        requires session_size_in_bounds { session_size ≤ length session.now }
        requires place_lt_places_most { place < places_most }
        ensures value { result ≡ read_place session.now place }
        ensures steps_bound { result.steps < 256 }
    {
        let at = PLACES_AT + Place::SIZE * place;
        Place {
            at,
            steps: byte(session, at),
        }
    }
}

// The head of a session's table.
pub fn head_of(session: &[u8]) -> Head
    requires { session_size ≤ length session.now }
    ensures { result ≡ head_of session.now }
{
    Head {
        states: byte(session, 0),
        inputs: byte(session, 1),
        outputs: byte(session, 2),
    }
}

// The lowest free place, if there is one.
pub fn free_place(session: &[u8]) -> Option<usize>
    requires { session_size ≤ length session.now }
    ensures { result ≡ found (free_place session.now) places_most }
{
    (0..Place::MOST).find(|place| Place::of(session, *place).steps == 0)
}

// How many cases a session holds.
pub fn count_held(session: &[u8]) -> usize
    requires { session_size ≤ length session.now }
    ensures value { result ≡ length (cases session.now) }
    ensures upper_bound { result ≤ places_most }
{
    (0..Place::MOST)
        .filter(|place| Place::of(session, *place).steps != 0)
        .count()
}
