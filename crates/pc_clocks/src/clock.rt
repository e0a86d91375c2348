//! One clock: how many events of each actor are known. Numbers past its end are 0.
ghost use Rattle.std.specs.Prelude.{◌≡◌, ◌+◌, ◌<◌, ◌≤◌, ◌^◌, ℕ, max, length, get_or, slice_set, OnOk};
ghost use Rattle.pc_clocks.specs.Seats.{Advanced, number};

use pc_base::List;
use std::alloc::AllocError;

// Extends the clock to this length with zeros.
fn widen(clock: &mut List<u64>, count: usize) -> Result<(), AllocError>
    requires { length clock.old ≤ count }
    ensures count { OnOk result (length clock.new ≡ count) }
    ensures same { OnOk result ((a : ℕ) → number clock.new a ≡ number clock.old a) }
{
    for _ in clock.len()..count {
        clock.push(0)?;
    }
    Ok(())
}

// Raises each number to the other clock's if that is greater.
fn join(clock: &mut List<u64>, other: &[u64])
    requires { length other.now ≤ length clock.old }
    ensures count { length clock.new ≡ length clock.old }
    ensures greatest { (a : ℕ) → number clock.new a ≡ max (number clock.old a) (number other.now a) }
{
    for actor in 0..other.len() {
        if clock.as_slice()[actor] < other[actor] {
            let _ = clock.replace(actor, other[actor]);
        }
    }
}

// Counts one more event of an actor.
fn tick(clock: &mut List<u64>, actor: usize)
    requires there { actor < length clock.old }
    requires small { number clock.old actor + 1 < 2 ^ 64 }
    ensures { clock.new ≡ slice_set clock.old actor (number clock.old actor + 1) }
{
    let count = clock.as_slice()[actor];
    let _ = clock.replace(actor, count + 1);
}

/// What an actor knows after its next event, given the clock of the message that it takes there, if any. `count` is the
/// number of actors.
pub fn advance(
    clock: &mut List<u64>,
    taken: &[u64],
    count: usize,
    actor: usize,
) -> Result<(), AllocError>
    requires there { actor < count }
    requires clock { length clock.old ≤ count }
    requires taken { length taken.now ≤ count }
    requires small { max (number clock.old actor) (number taken.now actor) + 1 < 2 ^ 64 }
    ensures { OnOk result (Advanced count actor clock.old taken.now clock.new) }
{
    widen(clock, count)?;
    join(clock, taken);
    tick(clock, actor);
    Ok(())
}
