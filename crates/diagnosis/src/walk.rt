// A run that was walked once, to be asked of many fault numbers: a number on a cell that the specified machine never executes answers as
// that machine does, and only the others are replayed.
ghost use Rattle.std.specs.Prelude.{◌≡◌, ◌<◌};
ghost use Rattle.machine.specs.Head.{numbers};
ghost use Rattle.machine.specs.Runs.{run_machine, run_case};
ghost use Rattle.diagnosis.specs.Diagnosis.{misses};
ghost use Rattle.diagnosis.specs.Loops.{Walked};

use crate::{is_failing, is_missed};
use machine::fault::Fault;
use machine::head::Head;
use machine::replay::{Run, mark_executed};

// A run, whether its case fails, and marks at the cells that the specified machine executes.
#[derive(Drop)]
pub struct Walk<'a> {
    pub run: Run<'a>,
    failing: bool,
    marks: [u8; Head::CELLS],
    ghost walked: { Walked (run_machine run) (run_case run) failing marks },
}

impl<'a> Walk<'a> {
    // Walks a run by the specified machine: says whether its case fails, and marks the cells that it executes.
    pub fn of(run: &Run<'a>) -> Walk<'a>
        ensures { result.run ≡ run.now }
    {
        let mut marks = [0; Head::CELLS];
        mark_executed(&run.table, run.inputs, &mut marks);
        Walk {
            run: *run,
            failing: is_failing(run),
            marks,
        }
    }

    // Whether a number's machine fails to reproduce the run's case.
    pub fn is_missed(&self, number: usize) -> bool
        requires { number < numbers self.now.run.table.head }
        ensures { result ≡ misses self.now.run.table.head self.now.run.table.cells.now number (run_case self.now.run) }
    {
        let cell = Fault::numbered(self.run.table.head, number).cell;
        if self.marks[cell] == 0 {
            return self.failing;
        }
        is_missed(&self.run, number)
    }
}
