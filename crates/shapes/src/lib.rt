// What is about no machine, stated and proved once for every crate: the shapes of a test loop, of a write loop and of an ordered
// list of refusals, and what it means that a contract allows one answer only. Definitions in specs/, laws in proofs/, and two
// accesses of slices that know no file and no machine.
#![tactic(auto)]

ghost use Rattle.std.specs.Prelude.{◌≡◌, ◌+◌, ◌≤◌, ◌<◌, length, get_or};
ghost use Rattle.shapes.specs.Edit.{filled};

// The byte at a place, as a number.
pub fn byte(s: &[u8], at: usize) -> usize
    requires { at < length s.now }
    ensures value { result ≡ get_or s.now at 0 }
    ensures upper_bound { result < 256 }
{
    usize::from(s[at])
}

// Copies the bytes of a slice into another, from a place on.
pub fn put(out: &mut [u8], at: usize, from: &[u8])
    requires { at + length from.now ≤ length out.old }
    ensures { out.new ≡ filled out.old at from.now }
{
    out[at..at + from.len()].copy_from_slice(from);
}
