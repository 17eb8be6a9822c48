// What a case must be to be run against a head (document 01, STEP).
ghost use Rattle.std.specs.Prelude.{◌≡◌, ◌<◌, length};
ghost use Rattle.shapes.specs.First.{found};
ghost use Rattle.machine.specs.Case.{bad_input, bad_output, bad_step, first_bad_step, good_case};

use crate::head::{Head, is_within};
use crate::replay::Replay;
use shapes::byte;

// Whether a step's input is no input of the head's.
fn is_bad_input(head: Head, inputs: &[u8], step: usize) -> bool
    requires { step < length inputs.now }
    ensures { result ≡ bad_input head inputs.now step }
{
    head.inputs <= byte(inputs, step)
}

// Whether a step's observed output is no output of the head's.
fn is_bad_output(head: Head, outputs: &[u8], step: usize) -> bool
    requires { step < length outputs.now }
    ensures { result ≡ bad_output head outputs.now step }
{
    head.outputs <= byte(outputs, step)
}

// Whether either is so.
#[tactic(auto, unfolding(crate::specs::Case::bad_step))]
fn is_bad_step(head: Head, inputs: &[u8], outputs: &[u8], step: usize) -> bool
    requires { (step < length inputs.now) × (step < length outputs.now) }
    ensures { result ≡ bad_step head inputs.now outputs.now step }
{
    is_bad_input(head, inputs, step) || is_bad_output(head, outputs, step)
}

// The lowest bad step, if there is one.
fn first_bad_step(head: Head, inputs: &[u8], outputs: &[u8]) -> Option<usize>
    requires { length outputs.now ≡ length inputs.now }
    ensures { result ≡ found (first_bad_step head inputs.now outputs.now) (length inputs.now) }
{
    (0..inputs.len()).find(|step| is_bad_step(head, inputs, outputs, *step))
}

// Whether a case can be run: 1 to 64 steps, as many outputs as inputs, no bad step.
#[tactic(auto, unfolding(crate::specs::Case::good_case))]
pub fn is_case(head: Head, inputs: &[u8], outputs: &[u8]) -> bool
    ensures { result ≡ good_case head inputs.now outputs.now }
{
    is_within(inputs.len(), Replay::STEPS)
        && outputs.len() == inputs.len()
        && first_bad_step(head, inputs, outputs).is_none()
}
