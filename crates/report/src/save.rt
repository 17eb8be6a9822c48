// Saving (document 01, "Session memory"): the held cases by rising place, as a record.
ghost use Rattle.std.specs.Prelude.{◌≡◌, ◌≤◌, ◌<◌, length};
ghost use Rattle.shapes.specs.Edit.{filled, place_after};
ghost use Rattle.house.specs.Refusal.{wrote};
ghost use Rattle.house.specs.Cases.{record_file, rest_of};
ghost use Rattle.house.specs.File.{rest_at};
ghost use Rattle.memory.specs.Layout.{places_most, place_size, cases};
ghost use Rattle.report.specs.Reports.{save_call};
ghost use Rattle.report.specs.Loops.{bytes_at};

use house::cases::put_case;
use house::file::{REST, VERSION, put_file_head};
use house::refusal::Refusal;
use memory::form::check_form;
use memory::layout::Place;
use memory::view::Held;

// How many bytes the case of a place takes in a record: none where it is free.
fn case_bytes(held: &Held<'_>, place: usize) -> usize
    requires { place < places_most }
    ensures value { result ≡ length (bytes_at held.now.bytes.now place) }
    ensures upper_bound { result ≤ place_size }
{
    match held.run_at(place) {
        Some(run) => 1 + 2 * run.inputs.len(),
        None => 0,
    }
}

// How many bytes the held cases take as a record.
fn record_bytes(held: &Held<'_>) -> usize
    ensures value { result ≡ length (record_file (cases held.now.bytes.now)) }
    ensures upper_bound { result < 65536 }
{
    let mut bytes = REST;
    for place in 0..Place::MOST {
        bytes += case_bytes(held, place);
    }
    bytes
}

// Writes the case of a place, if it holds one, and answers the place after it.
fn write_case(held: &Held<'_>, place: usize, out: &mut [u8], at: usize) -> usize
    requires place_bound { place < places_most }
    requires place_in_bounds { place_after at (bytes_at held.now.bytes.now place) ≤ length out.old }
    ensures next { result ≡ place_after at (bytes_at held.now.bytes.now place) }
    ensures written { out.new ≡ filled out.old at (bytes_at held.now.bytes.now place) }
{
    match held.run_at(place) {
        Some(run) => put_case(out, at, run.inputs, run.outputs),
        None => at,
    }
}

// Writes the held cases by rising place.
fn write_cases(held: &Held<'_>, out: &mut [u8])
    requires { place_after rest_at (rest_of (cases held.now.bytes.now)) ≤ length out.old }
    ensures { out.new ≡ filled out.old rest_at (rest_of (cases held.now.bytes.now)) }
{
    let mut at = REST;
    for place in 0..Place::MOST {
        at = write_case(held, place, out, at);
    }
}

// Writes the held cases by rising place as a record, and answers its bytes.
pub fn save(session: &[u8], tallies: &[u16], out: &mut [u8]) -> Result<usize, Refusal>
    ensures { wrote result out.new ≡ save_call session.now tallies.now out.old }
{
    check_form(session, tallies)?;
    let held = Held { bytes: session };
    let bytes = record_bytes(&held);
    if out.len() < bytes {
        return Err(Refusal::Short(bytes));
    }
    put_file_head(out, VERSION, bytes - REST);
    write_cases(&held, out);
    Ok(bytes)
}
