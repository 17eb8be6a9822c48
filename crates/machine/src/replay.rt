// The replay of a case, step by step (document 01, "Machine"): against the specified machine to see every symptom, and against
// the machine with one change to see whether it reproduces the case.
ghost use Rattle.std.specs.Prelude.{◌≡◌, ◌<◌, ◌≤◌, length};
ghost use Rattle.machine.specs.Limits.{steps_most};
ghost use Rattle.machine.specs.Head.{cell_count, numbers};
ghost use Rattle.machine.specs.Machine.{cell_number};
ghost use Rattle.machine.specs.Tested.{table_machine};
ghost use Rattle.machine.specs.Fault.{under, changed};
ghost use Rattle.machine.specs.Case.{CaseIn, InputsIn};
ghost use Rattle.machine.specs.Run.{agrees, executed, symptoms_of, reproduces};
ghost use Rattle.machine.specs.Marks.{marked};
ghost use Rattle.machine.specs.Replay.{fresh, stepped};

use crate::cell::{Move, cell_of, completed_move};
use crate::fault::{Change, Fault};
use crate::table::Table;
use shapes::byte;

// The state in which a case begins.
const INITIAL: usize = 0;

// A case, and the tested table that it can be run on.
#[derive(Clone, Copy)]
pub struct Run<'a> {
    pub table: Table<'a>,
    pub inputs: &'a [u8],
    pub outputs: &'a [u8],
    pub ghost fits: { CaseIn table.head inputs.now outputs.now },
}

// Where a case's replay stands: its state, the step reached, the symptoms so far, and the first of them (STEPS if there is none).
#[derive(Clone, Copy)]
pub struct Replay {
    pub state: usize,
    pub step: usize,
    pub symptoms: usize,
    pub first: usize,
}

// How many steps of a case differ, and the first of them (64 if there is none).
#[derive(Clone, Copy)]
pub struct Symptoms {
    pub count: usize,
    pub first: usize,
}

// Whether an observed output agrees with a given one.
fn is_agreed(observed: usize, given: usize) -> bool
    ensures { result ≡ agrees observed given }
{
    observed == given
}

impl Replay {
    pub const STEPS: usize = 64;

    // Before the first step.
    fn start() -> Replay
        ensures { result ≡ fresh }
    {
        Replay {
            state: INITIAL,
            step: 0,
            symptoms: 0,
            first: Replay::STEPS,
        }
    }

    // The replay after one step more: the machine moved, and an output was observed.
    fn step(self, to: Move, observed: usize) -> Replay
        requires { (self.step < steps_most) × (self.symptoms ≤ self.step) }
        ensures { result ≡ stepped self to observed }
    {
        let moved = Replay {
            state: to.next,
            step: self.step + 1,
            ..self
        };
        if is_agreed(observed, to.output) {
            return moved;
        }
        let symptoms = self.symptoms + 1;
        if self.symptoms == 0 {
            return Replay {
                symptoms,
                first: self.step,
                ..moved
            };
        }
        Replay { symptoms, ..moved }
    }
}

// The move from a state under an input of the machine with one change.
fn changed_move(table: &Table<'_>, change: Change, state: usize, input: usize) -> Move
    requires next_lt_states { change.to.next < table.now.head.states }
    requires state_lt_states { (state < table.now.head.states) × (input < table.now.head.inputs) }
    ensures moves { result ≡ (under (table_machine table.now) change).does (cell_number table.now.head.inputs state input) }
    ensures state { result.next < table.now.head.states }
{
    let cell = cell_of(table.head, state, input);
    if cell == change.cell {
        return change.to;
    }
    completed_move(table.cells, state, cell)
}

impl Run<'_> {
    // The symptoms of the case: the steps at which an observed output does not agree with the specified machine's.
    pub fn symptoms(&self) -> Symptoms
        ensures { result ≡ symptoms_of (table_machine self.now.table) self.now.inputs.now self.now.outputs.now }
    {
        let mut replay = Replay::start();
        for step in 0..self.inputs.len() {
            let to = self
                .table
                .specified_move(replay.state, byte(self.inputs, step));
            replay = replay.step(to, byte(self.outputs, step));
        }
        Symptoms {
            count: replay.symptoms,
            first: replay.first,
        }
    }

    // Whether the machine with one change reproduces the case. The replay stops at the first difference.
    fn is_reproduced_under(&self, change: Change) -> bool
        requires { change.to.next < self.now.table.head.states }
        ensures { result ≡ reproduces (under (table_machine self.now.table) change) self.now.inputs.now self.now.outputs.now }
    {
        let mut replay = Replay::start();
        for done in 0..self.inputs.len() {
            let to = changed_move(&self.table, change, replay.state, byte(self.inputs, done));
            replay = replay.step(to, byte(self.outputs, done));
            if replay.symptoms != 0 {
                return false;
            }
        }
        true
    }

    // Whether a number's machine reproduces the case.
    pub fn is_reproduced(&self, number: usize) -> bool
        requires { number < numbers self.now.table.head }
        ensures { result ≡ reproduces (changed self.now.table.head self.now.table.cells.now number) self.now.inputs.now self.now.outputs.now }
    {
        let fault = Fault::numbered(self.table.head, number);
        self.is_reproduced_under(fault.change(&self.table))
    }

    // Whether the specified machine reproduces the case. What cell 0 does anyway is put in its place, which changes nothing.
    pub fn is_expected(&self) -> bool
        ensures { result ≡ reproduces (table_machine self.now.table) self.now.inputs.now self.now.outputs.now }
    {
        let to = completed_move(self.table.cells, INITIAL, 0);
        self.is_reproduced_under(Change { cell: 0, to })
    }
}

// Marks each cell that the specified machine executes under the inputs: of what stands there, 0 or 1, it makes 2 or 3.
pub fn mark_executed(table: &Table<'_>, inputs: &[u8], out: &mut [u8])
    requires inputs_in { InputsIn table.now.head inputs.now }
    requires head_in_bounds { cell_count table.now.head ≤ length out.old }
    ensures { out.new ≡ marked (executed (table_machine table.now) inputs.now) out.old }
{
    let mut state = INITIAL;
    for input in inputs {
        let input = usize::from(*input);
        let cell = cell_of(table.head, state, input);
        out[cell] = out[cell] % 2 + 2;
        state = table.specified_move(state, input).next;
    }
}
