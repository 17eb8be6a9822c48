// The symptoms and the conflict set of a place's case, and the candidates (document 01, "Symptoms, conflict sets, verdict").
ghost use Rattle.std.specs.Prelude.{◌≡◌, ◌<◌};
ghost use Rattle.house.specs.Refusal.{wrote};
ghost use Rattle.diagnosis.specs.Loops.{Bits};
ghost use Rattle.memory.specs.Layout.{places_most, cases};
ghost use Rattle.report.specs.Reports.{symptoms_call, conflict_call, candidates_call};
ghost use Rattle.reading.specs.Reads.{machine_of};
ghost use Rattle.report.specs.Loops.{narrowed_at, narrowed_all};

use diagnosis::{conflict, fill, narrow};
use house::refusal::Refusal;
use machine::head::Head;
use machine::replay::Symptoms;
use memory::form::check_form;
use memory::layout::Place;
use memory::slot::check_slot;
use memory::view::Held;
use reading::list::is_some_failing;

// The symptoms of a place's case.
pub fn symptoms(session: &[u8], tallies: &[u16], place: usize) -> Result<Symptoms, Refusal>
    ensures { result ≡ symptoms_call session.now tallies.now place }
{
    check_slot(session, tallies, place)?;
    let run = Held { bytes: session }.run_at(place).unwrap();
    Ok(run.symptoms())
}

// Writes the conflict set of a place's case as 256 bytes of 0 or 1.
pub fn conflict_set(
    session: &[u8],
    tallies: &[u16],
    place: usize,
    out: &mut [u8],
) -> Result<usize, Refusal>
    ensures { wrote result out.new ≡ conflict_call session.now tallies.now place out.old }
{
    check_slot(session, tallies, place)?;
    let run = Held { bytes: session }.run_at(place).unwrap();
    if out.len() < Head::CELLS {
        return Err(Refusal::Short(0));
    }
    conflict(&run, out);
    Ok(0)
}

// Takes the case of a place, if it holds one, into the candidates.
fn narrow_at(held: &Held<'_>, place: usize, out: &mut [u8])
    requires place_bound { place < places_most }
    requires bits { Bits out.old }
    ensures { out.new ≡ narrowed_at held.now.bytes.now place out.old }
{
    if let Some(run) = held.run_at(place) {
        narrow(&run, out);
    }
}

// Takes every held case into the candidates.
fn narrow_all(held: &Held<'_>, out: &mut [u8])
    requires { Bits out.old }
    ensures { out.new ≡ narrowed_all (machine_of held.now.bytes.now) (cases held.now.bytes.now) out.old }
{
    for place in 0..Place::MOST {
        narrow_at(held, place, out);
    }
}

// Writes the candidates as 256 bytes of 0 or 1.
pub fn candidates(session: &[u8], tallies: &[u16], out: &mut [u8]) -> Result<usize, Refusal>
    ensures { wrote result out.new ≡ candidates_call session.now tallies.now out.old }
{
    check_form(session, tallies)?;
    if out.len() < Head::CELLS {
        return Err(Refusal::Short(0));
    }
    let held = Held { bytes: session };
    if !is_some_failing(&held) {
        fill(out, 0);
        return Ok(0);
    }
    fill(out, 1);
    narrow_all(&held, out);
    Ok(0)
}
