// Writes the five-litre table file and then the eight-litre one to standard output, as raw bytes.
#![tactic(auto)]

ghost use Rattle.std.specs.Prelude.{◌≡◌, ℕ, ◌≤◌, length};

use house::refusal::Refusal;
use product::{eight_litre, five_litre};
use std::io;

// Writes a table file that a call has put into `out`.
fn show(rt: &impl Print, answer: Result<usize, Refusal>, out: &[u8]) -> io::Result<()>
    requires { (bytes : ℕ) → answer ≡ Ok bytes → bytes ≤ length out.now }
{
    match answer {
        Ok(bytes) => rt.write_all(&out[..bytes]),
        Err(_) => Ok(()),
    }
}

fn main(rt: HostRuntime) -> io::Result<()> {
    let mut out = [0; 64];
    show(&rt, five_litre(&mut out), &out)?;
    show(&rt, eight_litre(&mut out), &out)
}
