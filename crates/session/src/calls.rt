// The calls that change a session (document 01, "Session memory", Order): start, add, amend, withdraw and load. Each first checks for
// itself, on shared references, so that a refusal changes nothing.
ghost use Rattle.std.specs.Prelude.{◌≡◌, true, ◌+◌, ◌-◌, ◌≤◌, ◌<◌, ℕ, length, get_or};
ghost use Rattle.shapes.specs.Refusals.{ruling};
ghost use Rattle.machine.specs.Head.{numbers};
ghost use Rattle.machine.specs.Case.{CaseIn, as_case, good_case, all_good};
ghost use Rattle.machine.specs.Runs.{bench_of};
ghost use Rattle.house.specs.Refusal.{checked, ruled};
ghost use Rattle.house.specs.Cases.{cases_in, count_in, count_of};
ghost use Rattle.memory.specs.Layout.{places_most, session_size, head_of, case_of, cases, free_place};
ghost use Rattle.memory.specs.Form.{Formed, is_slot};
ghost use Rattle.memory.specs.Store.{placed};
ghost use Rattle.tallies.specs.Tallies.{can_take, can_lower_by, raised, raised_by, lowered};
ghost use Rattle.session.specs.Calls.{after, offered, start_rules, start_call, add_rules, add_call, withdraw_rules, withdraw_call, amend_rules, amend_call, room_for_rules, load_rules, load_call, loaded_session, loaded_tallies};

use house::cases::{About, check_case, check_cases, read_record};
use house::record::Record;
use house::refusal::Refusal;
use house::table::read_table;
use machine::replay::Run;
use machine::table::Table;
use memory::form::{check_form, check_room};
use memory::layout::{Place, count_held, free_place, head_of};
use memory::slot::check_slot;
use memory::store::{clear_place, clear_tallies, store_case, store_table};
use memory::view::Held;
use tallies::tally::{can_lower, lower, raise};

// The refusal of a start.
fn check_start(session: &[u8], tallies: &[u16], file: &[u8]) -> Result<(), Refusal>
    ensures { result ≡ checked (ruling (start_rules session.now tallies.now file.now)) }
{
    check_room(session, tallies)?;
    read_table(file)?;
    Ok(())
}

// Starts a session with the table of a table file: copies it in, and clears places and tallies.
pub fn start(session: &mut [u8], tallies: &mut [u16], file: &[u8]) -> Result<usize, Refusal>
    ensures { after result session.new tallies.new ≡ start_call session.old tallies.old file.now }
{
    check_start(session, tallies, file)?;
    store_table(session, file);
    clear_tallies(tallies);
    Ok(0)
}

// The refusal of an addition.
fn check_add(session: &[u8], tallies: &[u16], inputs: &[u8], outputs: &[u8]) -> Result<(), Refusal>
    ensures { result ≡ checked (ruling (add_rules session.now tallies.now (offered inputs.now outputs.now))) }
{
    check_form(session, tallies)?;
    check_case(head_of(session), About { position: 0 }, inputs, outputs)?;
    if free_place(session).is_none() {
        return Err(Refusal::Full);
    }
    Ok(())
}

// Counts a case that can be run on a table into the tallies.
fn count_in<'a>(table: Table<'a>, inputs: &'a [u8], outputs: &'a [u8], tallies: &mut [u16])
    requires fits { CaseIn table.head inputs.now outputs.now }
    requires room { numbers table.head ≤ length tallies.old }
    requires by_index { (f : ℕ) → f < numbers table.head → get_or tallies.old f 0 < 65535 }
    ensures { tallies.new ≡ raised_by (record { head = table.entry.head; cells = table.entry.cells.now; case = as_case inputs.now outputs.now }) tallies.old }
{
    let run = Run {
        table,
        inputs,
        outputs,
    };
    raise(&run, tallies);
}

// Puts a case into the lowest free place, counts it into the tallies, and answers the place.
fn hold(session: &mut [u8], tallies: &mut [u16], inputs: &[u8], outputs: &[u8]) -> usize
    requires formed { Formed session.old tallies.old }
    requires outputs_value { good_case (head_of session.old) inputs.now outputs.now ≡ true }
    requires session_bound { free_place session.old < places_most }
    ensures place { result ≡ free_place session.old }
    ensures stored { session.new ≡ placed session.old (free_place session.old) (as_case inputs.now outputs.now) }
    ensures counted { tallies.new ≡ raised session.old (as_case inputs.now outputs.now) tallies.old }
{
    let place = free_place(session).unwrap();
    let held = Held { bytes: session };
    count_in(held.table(), inputs, outputs, tallies);
    store_case(session, place, inputs, outputs);
    place
}

// Adds a case in the lowest free place, and answers the place.
pub fn add(
    session: &mut [u8],
    tallies: &mut [u16],
    inputs: &[u8],
    outputs: &[u8],
) -> Result<usize, Refusal>
    ensures { after result session.new tallies.new ≡ add_call session.old tallies.old (offered inputs.now outputs.now) }
{
    check_add(session, tallies, inputs, outputs)?;
    Ok(hold(session, tallies, inputs, outputs))
}

// Whether the run of a held case can be counted out of the tallies.
fn can_take(held: &Held<'_>, tallies: &[u16], run: &Run<'_>) -> bool
    requires room { numbers run.now.table.head ≤ length tallies.now }
    requires some { 1 ≤ length (cases held.now.bytes.now) }
    ensures { result ≡ can_lower_by (bench_of run.now) tallies.now (length (cases held.now.bytes.now) - 1) }
{
    can_lower(run, tallies, count_held(held.bytes) - 1)
}

// Counts the case of a place out of the tallies.
fn take(session: &[u8], tallies: &mut [u16], place: usize)
    requires formed { Formed session.now tallies.old }
    requires place_value { is_slot session.now place ≡ true }
    requires place_value_2 { can_take session.now tallies.old place ≡ true }
    ensures { tallies.new ≡ lowered session.now (case_of session.now place) tallies.old }
{
    let held = Held { bytes: session };
    let run = held.run_at(place).unwrap();
    lower(&run, tallies);
}

// The refusal of a withdrawal.
fn check_withdraw(session: &[u8], tallies: &[u16], place: usize) -> Result<(), Refusal>
    ensures { result ≡ checked (ruling (withdraw_rules session.now tallies.now place)) }
{
    check_slot(session, tallies, place)?;
    let held = Held { bytes: session };
    let run = held.run_at(place).unwrap();
    if !can_take(&held, tallies, &run) {
        return Err(Refusal::Damaged);
    }
    Ok(())
}

// Withdraws the case of a place.
pub fn withdraw(session: &mut [u8], tallies: &mut [u16], place: usize) -> Result<usize, Refusal>
    ensures { after result session.new tallies.new ≡ withdraw_call session.old tallies.old place }
{
    check_withdraw(session, tallies, place)?;
    take(session, tallies, place);
    clear_place(session, place);
    Ok(0)
}

// The refusal of an amendment.
fn check_amend(
    session: &[u8],
    tallies: &[u16],
    place: usize,
    inputs: &[u8],
    outputs: &[u8],
) -> Result<(), Refusal>
    ensures { result ≡ checked (ruling (amend_rules session.now tallies.now place (offered inputs.now outputs.now))) }
{
    check_slot(session, tallies, place)?;
    let held = Held { bytes: session };
    let run = held.run_at(place).unwrap();
    check_case(run.table.head, About { position: 0 }, inputs, outputs)?;
    if !can_take(&held, tallies, &run) {
        return Err(Refusal::Damaged);
    }
    Ok(())
}

// Puts another case into a place that holds one.
pub fn amend(
    session: &mut [u8],
    tallies: &mut [u16],
    place: usize,
    inputs: &[u8],
    outputs: &[u8],
) -> Result<usize, Refusal>
    ensures { after result session.new tallies.new ≡ amend_call session.old tallies.old place (offered inputs.now outputs.now) }
{
    check_amend(session, tallies, place, inputs, outputs)?;
    let held = Held { bytes: session };
    let table = held.table();
    take(session, tallies, place);
    count_in(table, inputs, outputs, tallies);
    store_case(session, place, inputs, outputs);
    Ok(0)
}

// The refusal of the cases of a record that a session is to hold.
fn check_room_for(session: &[u8], record: &Record<'_>) -> Result<(), Refusal>
    requires { session_size ≤ length session.now }
    ensures { result ≡ checked (ruling (room_for_rules session.now (cases_in «record».now.bytes.now))) }
{
    check_cases(head_of(session), About { position: 0 }, record)?;
    if Place::MOST - count_held(session) < record.count {
        return Err(Refusal::Full);
    }
    Ok(())
}

// How many cases a load is to add, or its refusal.
fn check_load(session: &[u8], tallies: &[u16], file: &[u8]) -> Result<usize, Refusal>
    ensures { result ≡ ruled (ruling (load_rules session.now tallies.now file.now)) (count_of (count_in file.now)) }
{
    check_form(session, tallies)?;
    let count = read_record(file)?;
    check_room_for(session, &Record { bytes: file, count })?;
    Ok(count)
}

// Holds the cases of a record, in order.
fn hold_all(session: &mut [u8], tallies: &mut [u16], record: &Record<'_>)
    requires formed { Formed session.old tallies.old }
    requires good { all_good (head_of session.old) (cases_in «record».now.bytes.now) ≡ true }
    requires room { length (cases session.old) + length (cases_in «record».now.bytes.now) ≤ places_most }
    ensures stored { session.new ≡ loaded_session session.old (cases_in «record».now.bytes.now) }
    ensures counted { tallies.new ≡ loaded_tallies session.old (cases_in «record».now.bytes.now) tallies.old }
{
    for case in record.cases() {
        hold(session, tallies, case.inputs, case.outputs);
    }
}

// Adds a record's cases in order, all or none, and answers how many.
pub fn load(session: &mut [u8], tallies: &mut [u16], file: &[u8]) -> Result<usize, Refusal>
    ensures { after result session.new tallies.new ≡ load_call session.old tallies.old file.now }
{
    let count = check_load(session, tallies, file)?;
    hold_all(session, tallies, &Record { bytes: file, count });
    Ok(count)
}
