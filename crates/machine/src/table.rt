// A table that was tested, and the specified machine's moves on it (document 01, "Machine").
ghost use Rattle.std.specs.Prelude.{◌≡◌, ◌<◌};
ghost use Rattle.machine.specs.Cell.{TableIn};
ghost use Rattle.machine.specs.Machine.{cell_number, specified};

use crate::cell::{Move, cell_of, completed_move};
use crate::head::Head;

// A head and the bytes of its cells, of which none leads out of the table.
#[derive(Clone, Copy)]
pub struct Table<'a> {
    pub head: Head,
    pub cells: &'a [u8],
    pub ghost sound: { TableIn head cells.now },
}

impl Table<'_> {
    // The specified machine's move from a state under an input.
    pub fn specified_move(&self, state: usize, input: usize) -> Move
        requires { (state < self.now.head.states) × (input < self.now.head.inputs) }
        ensures moves { result ≡ (specified self.now.head self.now.cells.now).does (cell_number self.now.head.inputs state input) }
        ensures state { result.next < self.now.head.states }
    {
        completed_move(self.cells, state, cell_of(self.head, state, input))
    }
}
