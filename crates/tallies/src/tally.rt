// Tallies raised and lowered by a run: each by whether its number's machine misses the run's case.
ghost use Rattle.std.specs.Prelude.{◌≡◌, ℕ, ◌≤◌, ◌<◌, length, get_or};
ghost use Rattle.machine.specs.Head.{numbers};
ghost use Rattle.machine.specs.Runs.{bench_of};
ghost use Rattle.tallies.specs.Tallies.{miss_by, raised_by, lowered_by, can_lose_by, can_lower_by};

use diagnosis::walk::Walk;
use machine::replay::Run;

// Counts a case into the tallies.
pub fn raise(run: &Run<'_>, tallies: &mut [u16])
    requires room { numbers run.now.table.head ≤ length tallies.old }
    requires by_index { (f : ℕ) → f < numbers run.now.table.head → get_or tallies.old f 0 < 65535 }
    ensures { tallies.new ≡ raised_by (bench_of run.now) tallies.old }
{
    let walk = Walk::of(run);
    for number in 0..run.table.head.numbers() {
        tallies[number] += u16::from(walk.is_missed(number));
    }
}

// Counts a case out of the tallies.
pub fn lower(run: &Run<'_>, tallies: &mut [u16])
    requires room { numbers run.now.table.head ≤ length tallies.old }
    requires by_index { (f : ℕ) → f < numbers run.now.table.head → miss_by (bench_of run.now) f ≤ get_or tallies.old f 0 }
    ensures { tallies.new ≡ lowered_by (bench_of run.now) tallies.old }
{
    let walk = Walk::of(run);
    for number in 0..run.table.head.numbers() {
        tallies[number] -= u16::from(walk.is_missed(number));
    }
}

// Whether one tally can lose a case: it does not go below 0, nor stay above the cases left.
fn is_fair(tally: usize, miss: usize, left: usize) -> bool
    requires { miss ≤ 1 }
    ensures { result ≡ can_lose_by miss tally left }
{
    miss <= tally && tally - miss <= left
}

// Whether every tally can lose a case, with so many cases left.
pub fn can_lower(run: &Run<'_>, tallies: &[u16], left: usize) -> bool
    requires { numbers run.now.table.head ≤ length tallies.now }
    ensures { result ≡ can_lower_by (bench_of run.now) tallies.now left }
{
    let walk = Walk::of(run);
    (0..run.table.head.numbers()).all(|number| {
        let miss = usize::from(walk.is_missed(number));
        is_fair(usize::from(tallies[number]), miss, left)
    })
}
