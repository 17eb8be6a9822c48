// Fault numbers: what a number stands for, whether it is a fault, and the one change that it makes (document 01, "Fault numbers").
ghost use Rattle.std.specs.Prelude.{◌≡◌, ◌<◌};
ghost use Rattle.machine.specs.Limits.{numbers_most};
ghost use Rattle.machine.specs.Head.{HeadIn, numbers};
ghost use Rattle.machine.specs.Tested.{table_machine};
ghost use Rattle.machine.specs.Fault.{fault_of, made_fault, FaultIn, change_of, alters, is_fault};

use crate::cell::{Move, completed_move, is_undefined};
use crate::head::Head;
use crate::table::Table;

// What a fault changes at its cell: the output, or the state it goes to.
#[derive(Clone, Copy, Debug, PartialEq, Eq)]
pub enum Kind {
    Output,
    Transfer,
}

// What a number stands for: one cell, and the output or the state that it gives there. Any number in use makes one, also a number that is no
// fault because its value is the cell's own or its cell is undefined: `is_fault` tells.
#[derive(Clone, Copy)]
pub struct Fault {
    pub cell: usize,
    pub kind: Kind,
    pub value: usize,
}

// The move that stands at one cell in place of the table's.
#[derive(Clone, Copy)]
pub struct Change {
    pub cell: usize,
    pub to: Move,
}

impl Fault {
    pub const NUMBERS: usize = Head::CELLS * (Head::STATES + Head::OUTPUTS);

    // What any number stands for, if it is in use.
    pub fn new(head: Head, number: usize) -> Option<Fault>
        requires { HeadIn head }
        ensures made { result ≡ made_fault head number }
        ensures limit { Fault.NUMBERS ≡ numbers_most }
    {
        if head.numbers() <= number {
            return None;
        }
        Some(Fault::numbered(head, number))
    }

    // What a number in use stands for.
    pub fn numbered(head: Head, number: usize) -> Fault
        requires head_in { HeadIn head }
        requires number_bound { number < numbers head }
        ensures fault { result ≡ fault_of head number }
        ensures known { FaultIn head result }
    {
        let width = head.states + head.outputs;
        let cell = number / width;
        let value = number % width;
        if value < head.outputs {
            return Fault {
                cell,
                kind: Kind::Output,
                value,
            };
        }
        Fault {
            cell,
            kind: Kind::Transfer,
            value: value - head.outputs,
        }
    }

    // The change that the fault makes to the specified machine.
    #[tactic(auto, unfolding(crate::specs::Fault::change_of))]
    pub fn change(self, table: &Table<'_>) -> Change
        requires { FaultIn table.now.head self }
        ensures { result ≡ change_of (table_machine table.now) self }
    {
        let own = self.own_move(table);
        let to = match self.kind {
            Kind::Output => Move {
                output: self.value,
                ..own
            },
            Kind::Transfer => Move {
                next: self.value,
                ..own
            },
        };
        Change {
            cell: self.cell,
            to,
        }
    }

    // Whether the fault lies on a defined cell and its value differs from the cell's own.
    #[tactic(auto, unfolding(crate::specs::Fault::alters, crate::specs::Machine::specified))]
    fn is_alteration(self, table: &Table<'_>) -> bool
        requires { FaultIn table.now.head self }
        ensures { result ≡ alters table.now.head table.now.cells.now self }
    {
        let own = self.own_move(table);
        let own_value = match self.kind {
            Kind::Output => own.output,
            Kind::Transfer => own.next,
        };
        !is_undefined(table.cells, self.cell) && self.value != own_value
    }

    // What the specified machine does at the fault's cell.
    #[tactic(auto, unfolding(crate::specs::Machine::specified))]
    fn own_move(self, table: &Table<'_>) -> Move
        requires { FaultIn table.now.head self }
        ensures { result ≡ (table_machine table.now).does self.cell }
    {
        completed_move(table.cells, self.cell / table.head.inputs, self.cell)
    }
}

// Whether a number is a fault.
pub fn is_fault(table: &Table<'_>, number: usize) -> bool
    ensures { result ≡ is_fault table.now.head table.now.cells.now number }
{
    let Some(fault) = Fault::new(table.head, number) else {
        return false;
    };
    fault.is_alteration(table)
}
