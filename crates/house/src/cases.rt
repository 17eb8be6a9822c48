// The record file (document 01, "House files"): zero to 64 cases, each a length byte, the inputs and the observed outputs.
ghost use Rattle.std.specs.Prelude.{◌≡◌, ◌+◌, ◌*◌, ◌≤◌, ◌<◌, length};
ghost use Rattle.shapes.specs.Edit.{filled, place_after};
ghost use Rattle.shapes.specs.Refusals.{ruling};
ghost use Rattle.machine.specs.Limits.{steps_most};
ghost use Rattle.machine.specs.Case.{as_case};
ghost use Rattle.house.specs.Refusal.{checked};
ghost use Rattle.house.specs.Cases.{cases_most, case_bytes, case_fits, count_in, record_read, cases_in, case_rules, cases_rules};

use crate::file::{REST, VERSION, check_file};
use crate::record::Record;
use crate::refusal::Refusal;
use machine::case::is_case;
use machine::head::{Head, is_within};
use machine::replay::Replay;
use shapes::{byte, put};

// The most cases of a record.
pub const CASES: usize = 64;

// What is said about a case beside its steps: the position at which it stands in a record, 0 where it is handed over alone.
#[derive(Clone, Copy)]
pub struct About {
    pub position: usize,
}

// Whether a whole case stands at a place.
#[tactic(auto, unfolding(crate::specs::Cases::case_fits))]
fn is_whole(file: &[u8], at: usize) -> bool
    requires { at < length file.now }
    ensures { result ≡ case_fits file.now at }
{
    let steps = byte(file, at);
    is_within(steps, Replay::STEPS) && 2 * steps < file.len() - at
}

// How many cases stand in a record file, unless its cases are broken.
fn count_cases(file: &[u8]) -> Option<usize>
    ensures { result ≡ count_in file.now }
{
    let mut at = REST;
    let mut count = 0;
    while at < file.len() {
        if count == CASES || !is_whole(file, at) {
            return None;
        }
        at = at + 1 + 2 * byte(file, at);
        count += 1;
    }
    Some(count)
}

// The count of the cases of a record file, or its refusal, from any bytes.
pub fn read_record(file: &[u8]) -> Result<usize, Refusal>
    ensures { result ≡ record_read file.now }
{
    check_file(file, VERSION)?;
    count_cases(file).ok_or(Refusal::Record)
}

// Writes a case at a place, and answers the place after it.
pub fn put_case(out: &mut [u8], at: usize, inputs: &[u8], outputs: &[u8]) -> usize
    requires inputs_len_bound { (length inputs.now ≤ steps_most) × (length outputs.now ≡ length inputs.now) }
    requires inputs_in_bounds { at + 1 + 2 * length inputs.now ≤ length out.old }
    ensures next { result ≡ place_after at (case_bytes (as_case inputs.now outputs.now)) }
    ensures written { out.new ≡ filled out.old at (case_bytes (as_case inputs.now outputs.now)) }
{
    let steps = inputs.len();
    out[at] = steps as u8;
    put(out, at + 1, inputs);
    put(out, at + 1 + steps, outputs);
    at + 1 + 2 * steps
}

// What is wrong with a case against a head.
pub fn check_case(head: Head, about: About, inputs: &[u8], outputs: &[u8]) -> Result<(), Refusal>
    ensures { result ≡ checked (ruling (case_rules head about (as_case inputs.now outputs.now))) }
{
    if !is_case(head, inputs, outputs) {
        return Err(Refusal::Step);
    }
    Ok(())
}

// What is wrong with the first case of a record that has a fault against a head; `first` is said about the record's first case.
pub fn check_cases(head: Head, first: About, record: &Record<'_>) -> Result<(), Refusal>
    requires { first.position ≤ cases_most }
    ensures { result ≡ checked (ruling (cases_rules head first (cases_in «record».now.bytes.now))) }
{
    for (i, case) in record.cases().enumerate() {
        let about = About {
            position: first.position + i,
        };
        check_case(head, about, case.inputs, case.outputs)?;
    }
    Ok(())
}
