// A record that was read, and its cases one after the other (document 01, "House files").
ghost use Rattle.std.specs.Prelude.{◌≡◌, ◌+◌, ◌≤◌, Ok, true};
ghost use Rattle.machine.specs.Case.{as_case};
ghost use Rattle.house.specs.Cases.{case_bytes, case_fits, case_at, record_read};
ghost use Rattle.house.specs.Walk.{place_of};

use crate::file::REST;
use shapes::byte;

// The bytes of a record that was read, and the count of its cases.
#[derive(Clone, Copy)]
pub struct Record<'a> {
    pub bytes: &'a [u8],
    pub count: usize,
    pub ghost read: { record_read bytes.now ≡ Ok count },
}

// A case of a record: its bytes with the length byte, its inputs and its observed outputs.
#[derive(Clone, Copy)]
pub struct Case<'a> {
    pub bytes: &'a [u8],
    pub inputs: &'a [u8],
    pub outputs: &'a [u8],
    pub ghost whole: { bytes.now ≡ case_bytes (as_case inputs.now outputs.now) },
}

// The cases of a record that are left to take: how many were taken, and the place of the next.
#[derive(Clone, Copy)]
pub struct Cases<'a> {
    record: Record<'a>,
    taken: usize,
    at: usize,
    ghost place: { at ≡ place_of record.bytes.now taken },
    ghost few: { taken ≤ record.count },
}

// The case that stands at a place.
fn case_there(file: &[u8], at: usize) -> Case<'_>
    requires { case_fits file.now at ≡ true }
    ensures case { as_case result.inputs.now result.outputs.now ≡ case_at file.now at }
    ensures begins { result.bytes.ref_ptr ≡ (file.entry.ref_ptr.0, at + file.entry.ref_ptr.1) }
{
    let steps = byte(file, at);
    let bytes = &file[at..at + 1 + 2 * steps];
    let (inputs, outputs) = bytes[1..].split_at(steps);
    Case {
        bytes,
        inputs,
        outputs,
    }
}

impl<'a> Record<'a> {
    ghost use Rattle.house.specs.Left.{parts_left, parts_in};

    // The cases of the record, in order.
    pub fn cases(&self) -> Cases<'a>
        ensures { parts_left result ≡ parts_in self.now.bytes.ref_ptr self.now.bytes.now }
    {
        Cases {
            record: *self,
            taken: 0,
            at: REST,
        }
    }
}

impl<'a> Iterator for Cases<'a> {
    ghost use Rattle.std.specs.Iterator.{YieldsFirstBy, item_count};
    ghost use Rattle.house.specs.Left.{lent_part, parts_left};

    type Item = Case<'a>;

    ghost next_gives = { YieldsFirstBy lent_part parts_left };

    ghost remaining = { item_count parts_left };

    fn next(&mut self) -> Option<Case<'a>> {
        if self.taken == self.record.count {
            return None;
        }
        let case = case_there(self.record.bytes, self.at);
        *self = Cases {
            record: self.record,
            taken: self.taken + 1,
            at: self.at + 1 + 2 * case.inputs.len(),
        };
        Some(case)
    }
}
