// The cells of a table as bytes, next state before output, and the completed machine's move at a cell (document 01, "Machine").
ghost use Rattle.std.specs.Prelude.{◌≡◌, ◌+◌, ◌*◌, ◌<◌, ◌≤◌, length};
ghost use Rattle.machine.specs.Head.{HeadIn, cell_count};
ghost use Rattle.machine.specs.Cell.{undefined, bad_cell, bad_in};
ghost use Rattle.machine.specs.Machine.{cell_number, completed};

use crate::head::Head;
use shapes::byte;

// Both bytes of an undefined cell.
pub const UNDEFINED: u8 = 255;

// The output of an undefined cell.
const NULL_OUTPUT: usize = 0;

// Where a machine goes at a cell, and what it gives.
#[derive(Clone, Copy)]
pub struct Move {
    pub next: usize,
    pub output: usize,
}

// Whether a cell holds 255 and 255.
#[tactic(auto, unfolding(crate::specs::Cell::undefined))]
pub fn is_undefined(cells: &[u8], cell: usize) -> bool
    requires { 2 * cell + 1 < length cells.now }
    ensures { result ≡ undefined cells.now cell }
{
    cells[2 * cell] == UNDEFINED && cells[2 * cell + 1] == UNDEFINED
}

// Whether a cell leads out of the table: its next state is no state or its output no output.
#[tactic(auto, unfolding(crate::specs::Cell::bad_cell))]
fn is_bad(head: Head, cells: &[u8], cell: usize) -> bool
    requires { 2 * cell + 1 < length cells.now }
    ensures { result ≡ bad_cell head cells.now cell }
{
    let next = byte(cells, 2 * cell);
    let output = byte(cells, 2 * cell + 1);
    !is_undefined(cells, cell) && (head.states <= next || head.outputs <= output)
}

// The lowest bad cell, if there is one.
pub fn first_bad(head: Head, cells: &[u8]) -> Option<usize>
    requires head_in { HeadIn head }
    requires head_in_bounds { 2 * cell_count head ≤ length cells.now }
    ensures { result ≡ bad_in head cells.now }
{
    (0..head.cells()).find(|cell| is_bad(head, cells, *cell))
}

// The completed machine's move at a cell of a state.
#[tactic(auto, unfolding(crate::specs::Machine::completed, crate::specs::Cell::undefined))]
pub fn completed_move(cells: &[u8], state: usize, cell: usize) -> Move
    requires { 2 * cell + 1 < length cells.now }
    ensures { result ≡ completed cells.now state cell }
{
    let next = cells[2 * cell];
    let output = cells[2 * cell + 1];
    // Both tests at once: a replay comes here at every step.
    if (next == UNDEFINED) & (output == UNDEFINED) {
        return Move {
            next: state,
            output: NULL_OUTPUT,
        };
    }
    Move {
        next: next.into(),
        output: output.into(),
    }
}

// The number of the cell of a state and an input.
pub fn cell_of(head: Head, state: usize, input: usize) -> usize
    requires head_in { HeadIn head }
    requires state_lt_states { (state < head.states) × (input < head.inputs) }
    ensures value { result ≡ cell_number head.inputs state input }
    ensures upper_bound { result < cell_count head }
{
    state * head.inputs + input
}
