// Diagnosis (document 01, "Symptoms, conflict sets, verdict"): what one case says against a table and against a fault number.
// It rests on the machine's definition of a run and its laws, and on no byte of a cell.
#![tactic(auto)]

ghost use Rattle.std.specs.Prelude.{◌≡◌, ◌<◌, ◌≤◌, length, Some};
ghost use Rattle.machine.specs.Limits.{cells_most};
ghost use Rattle.machine.specs.Head.{numbers};
ghost use Rattle.machine.specs.Runs.{run_machine, run_case};
ghost use Rattle.diagnosis.specs.Diagnosis.{fails, misses, verdict_text, conflict_bytes};
ghost use Rattle.diagnosis.specs.Loops.{spread, narrowed, swept, swept_all, Bits};

use machine::head::Head;
use machine::replay::{Run, mark_executed};
use std::fmt;

// A run that was walked once, to be asked of many fault numbers.
pub mod walk;

// What the held cases say together.
#[derive(Clone, Copy, Debug, PartialEq, Eq)]
pub enum Verdict {
    // No case fails.
    Clear,
    // Some case fails and a fault explains all.
    Found,
    // Some case fails and no fault explains all.
    None,
}

impl fmt::Display for Verdict {
    ghost output = { λ verdict. Some (verdict_text verdict) };

    fn fmt<W: fmt::Write>(&self, f: &mut fmt::Formatter<W>) -> fmt::Result {
        f.write_str(match self {
            Verdict::Clear => "CLEAR",
            Verdict::Found => "FOUND",
            Verdict::None => "NONE",
        })
    }
}

// Whether a run's case fails.
pub fn is_failing(run: &Run<'_>) -> bool
    ensures { result ≡ fails (run_machine run.now) (run_case run.now) }
{
    !run.is_expected()
}

// Whether a number's machine fails to reproduce a run's case.
pub fn is_missed(run: &Run<'_>, number: usize) -> bool
    requires { number < numbers run.now.table.head }
    ensures { result ≡ misses run.now.table.head run.now.table.cells.now number (run_case run.now) }
{
    !run.is_reproduced(number)
}

// Writes one value at all 256 cells.
pub fn fill(out: &mut [u8], value: u8)
    requires { cells_most ≤ length out.old }
    ensures { out.new ≡ spread value out.old }
{
    out[..Head::CELLS].fill(value);
}

// 1 for a marked 1, else 0.
fn sweep_one(value: u8) -> u8
    ensures { result ≡ swept value }
{
    u8::from(value == 3)
}

// Keeps a 1 only where it was marked.
fn sweep(out: &mut [u8])
    requires { cells_most ≤ length out.old }
    ensures { out.new ≡ swept_all out.old }
{
    for value in &mut out[..Head::CELLS] {
        *value = sweep_one(*value);
    }
}

// Takes one run's conflict set into the candidates: of a failing case, only the cells of its conflict set stay.
pub fn narrow(run: &Run<'_>, out: &mut [u8])
    requires { Bits out.old }
    ensures { out.new ≡ narrowed (run_machine run.now) (run_case run.now) out.old }
{
    let found = run.symptoms();
    if found.count == 0 {
        return;
    }
    let steps = found.first + 1;
    mark_executed(&run.table, &run.inputs[..steps], out);
    sweep(out);
}

// Writes the conflict set of a run's case as 256 bytes of 0 or 1.
pub fn conflict(run: &Run<'_>, out: &mut [u8])
    requires { cells_most ≤ length out.old }
    ensures { out.new ≡ conflict_bytes (run_machine run.now) (run_case run.now) out.old }
{
    if !is_failing(run) {
        fill(out, 0);
        return;
    }
    fill(out, 1);
    narrow(run, out);
}
