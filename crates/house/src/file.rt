// What every house file begins with (document 01, "House files"): the version, and the length of the rest in two bytes, big-endian.
ghost use Rattle.std.specs.Prelude.{◌≡◌, ◌≤◌, ◌<◌, length};
ghost use Rattle.shapes.specs.Refusals.{ruling};
ghost use Rattle.shapes.specs.Edit.{filled};
ghost use Rattle.house.specs.Refusal.{checked};
ghost use Rattle.house.specs.File.{rest_at, file_rules, file_head};

use crate::refusal::Refusal;

// The version of both files.
pub const VERSION: usize = 1;

// Where the rest begins.
pub const REST: usize = 3;

// What the higher of two bytes counts.
pub const HIGHER: usize = 256;

// The refusal of a file that is no house file of a version, whatever it holds.
#[tactic(auto, unfolding(crate::specs::File::file_rules, shapes::specs::Refusals::ruling))]
pub fn check_file(file: &[u8], version: usize) -> Result<(), Refusal>
    ensures { result ≡ checked (ruling (file_rules version file.now)) }
{
    let [first, high, low, rest @ ..] = file else {
        return Err(Refusal::Length);
    };
    if usize::from(*first) != version {
        return Err(Refusal::Version);
    }
    if usize::from(u16::from_be_bytes([*high, *low])) != rest.len() {
        return Err(Refusal::Length);
    }
    Ok(())
}

// Writes the first three bytes of a file of a version with so long a rest.
#[tactic(auto, unfolding(crate::specs::File::file_head, shapes::specs::Edit::filled))]
pub fn put_file_head(out: &mut [u8], version: usize, rest: usize)
    requires rest_at_in_bounds { rest_at ≤ length out.old }
    requires version_bound { version < 256 }
    requires rest_bound { rest < 65536 }
    ensures { out.new ≡ filled out.old 0 (file_head version rest) }
{
    let [high, low] = (rest as u16).to_be_bytes();
    out[0] = version as u8;
    out[1] = high;
    out[2] = low;
}
