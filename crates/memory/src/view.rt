// A session whose table and places are well-formed: its table, and the cases that its places hold.
ghost use Rattle.memory.specs.Form.{HeldIn};

use crate::layout::{PLACES_AT, Place, SESSION_CELLS_AT, head_of};
use house::refusal::Refusal;
use machine::replay::{Replay, Run};
use machine::table::Table;

// The bytes of a session whose table and places are well-formed.
#[derive(Clone, Copy)]
pub struct Held<'s> {
    pub bytes: &'s [u8],
    pub ghost known: { HeldIn bytes.now },
}

impl<'s> Held<'s> {
    ghost use Rattle.std.specs.Prelude.{◌≡◌, ◌<◌};
    ghost use Rattle.std.specs.Option.{option_map};
    ghost use Rattle.machine.specs.Runs.{bench_of};
    ghost use Rattle.memory.specs.Layout.{places_most, head_of, cells_of};
    ghost use Rattle.memory.specs.Held.{bench_at, slot_of, told_bench};

    // The session's table.
    pub fn table(&self) -> Table<'s>
        ensures head { result.head ≡ head_of self.now.bytes.now }
        ensures cells { result.cells.now ≡ cells_of self.now.bytes.now }
    {
        Table {
            head: head_of(self.bytes),
            cells: &self.bytes[SESSION_CELLS_AT..PLACES_AT],
        }
    }

    // The case of a place, if it holds one, to be run on the session's table.
    pub fn run_at(&self, place: usize) -> Option<Run<'s>>
        requires { place < places_most }
        ensures { option_map bench_of result ≡ bench_at self.now.bytes.now place }
    {
        let here = Place::of(self.bytes, place);
        if here.steps == 0 {
            return None;
        }
        let inputs = here.at + 1;
        let outputs = inputs + Replay::STEPS;
        Some(Run {
            table: self.table(),
            inputs: &self.bytes[inputs..inputs + here.steps],
            outputs: &self.bytes[outputs..outputs + here.steps],
        })
    }

    // The same of any number: SLOT where it is that of no place, or of one that holds no case.
    pub fn slot(&self, place: usize) -> Result<Run<'s>, Refusal>
        ensures { told_bench result ≡ slot_of self.now.bytes.now place }
    {
        if Place::MOST <= place {
            return Err(Refusal::Slot);
        }
        self.run_at(place).ok_or(Refusal::Slot)
    }
}
