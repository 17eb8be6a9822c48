// Whether a place holds a case, over any bytes (document 01, SLOT).
ghost use Rattle.std.specs.Prelude.{◌≡◌};
ghost use Rattle.shapes.specs.Refusals.{ruling};
ghost use Rattle.house.specs.Refusal.{checked};
ghost use Rattle.memory.specs.Form.{slot_rules};

use crate::form::check_form;
use crate::view::Held;
use house::refusal::Refusal;

// The refusal of a place that holds no case.
pub fn check_slot(session: &[u8], tallies: &[u16], place: usize) -> Result<(), Refusal>
    ensures { result ≡ checked (ruling (slot_rules session.now tallies.now place)) }
{
    check_form(session, tallies)?;
    Held { bytes: session }.slot(place)?;
    Ok(())
}
