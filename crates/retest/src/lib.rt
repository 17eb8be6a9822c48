// Retest (document 01, "House files"): a case of a first record, or the first case of a retest record that has the same inputs.
#![tactic(auto)]

ghost use Rattle.std.specs.Prelude.{◌≡◌};
ghost use Rattle.shapes.specs.Refusals.{ruling};
ghost use Rattle.machine.specs.Case.{as_case};
ghost use Rattle.house.specs.Refusal.{ruled};
ghost use Rattle.house.specs.Cases.{count_in, count_of};
ghost use Rattle.retest.specs.Retest.{same_inputs, retest_rules, retested, retested_at, retest_number};
ghost use Rattle.retest.specs.Picked.{as_part, picked_part};

use house::cases::read_record;
use house::record::{Case, Record};
use house::refusal::Refusal;

// Whether two cases have the same inputs.
fn is_same(own: &Case<'_>, other: &Case<'_>) -> bool
    ensures { result ≡ same_inputs (as_case own.now.inputs.now own.now.outputs.now) (as_case other.now.inputs.now other.now.outputs.now) }
{
    own.inputs == other.inputs
}

// How many cases the first record and the retest have, or the refusal of the retest.
fn check_retest(first: &[u8], retest: &[u8], position: usize) -> Result<(usize, usize), Refusal>
    ensures { result ≡ ruled (ruling (retest_rules first.now retest.now position)) (count_of (count_in first.now), count_of (count_in retest.now)) }
{
    let count = read_record(first)?;
    let again = read_record(retest)?;
    if count <= position {
        return Err(Refusal::Slot);
    }
    Ok((count, again))
}

// The case picked, or the refusal of the retest.
fn picked<'a>(first: &'a [u8], retest: &'a [u8], position: usize) -> Result<Case<'a>, Refusal>
    ensures { as_part result ≡ ruled (ruling (retest_rules first.now retest.now position)) (picked_part first.entry.ref_ptr retest.entry.ref_ptr first.now retest.now position) }
{
    let (count, again) = check_retest(first, retest, position)?;
    let first = Record {
        bytes: first,
        count,
    };
    let retest = Record {
        bytes: retest,
        count: again,
    };
    let own = first.cases().nth(position).unwrap();
    let again = retest.cases().find(|case| is_same(&own, case));
    Ok(again.unwrap_or(own))
}

// The case picked, as a part of the retest or of the first record, with its length byte; empty exactly on refusal.
pub fn pick<'a>(first: &'a [u8], retest: &'a [u8], position: usize) -> &'a [u8]
    ensures result_value { result.now ≡ retested first.now retest.now position }
    ensures ref_ptr_value { result.ref_ptr ≡ retested_at first.entry.ref_ptr retest.entry.ref_ptr first.now retest.now position }
{
    match picked(first, retest, position) {
        Ok(case) => case.bytes,
        Err(_) => &first[..0],
    }
}

// The number of the refusal of a retest, or 0.
pub fn pick_refusal(first: &[u8], retest: &[u8], position: usize) -> usize
    ensures { result ≡ retest_number first.now retest.now position }
{
    match check_retest(first, retest, position) {
        Ok(_) => 0,
        Err(refusal) => refusal.number(),
    }
}
