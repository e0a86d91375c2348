//! Lists of numbers, and lists of the sums of their groups.
ghost use Rattle.std.specs.Prelude.{◌≡◌, ◌+◌, ◌-◌, ◌*◌, ◌<◌, ◌≤◌, ◌^◌, length, take, slice_index, slice_set, sum, OnOk};
ghost use Rattle.pc_tally.specs.Sums.{FallsOn, IsLonger};

use std::alloc::AllocError;

/// How many numbers are summed in one group.
pub const GROUP: usize = 64;

/// Subtracts one number from the sum at a place, and adds another.
pub fn exchange(sums: &mut Vec<u32>, at: usize, old: u32, new: u32)
    requires there { at < length sums.old.items }
    requires holds { old ≤ slice_index sums.old.items at }
    requires few { slice_index sums.old.items at + new < 2 ^ 32 + old }
    ensures { sums.new.items ≡ slice_set sums.old.items at (slice_index sums.old.items at - old + new) }
{
    let sum = sums[at];
    sums[at] = sum - old + new;
}

/// Appends an empty group if there are too few groups for this count of numbers.
pub fn cover(sums: &mut Vec<u32>, count: usize) -> Result<(), AllocError>
    requires few { length sums.old.items < 2 ^ 40 }
    requires nearly { count ≤ GROUP * length sums.old.items + 1 }
    ensures enough { OnOk result (count ≤ GROUP * length sums.new.items) }
    ensures tight { GROUP * length sums.new.items ≤ GROUP * length sums.old.items + (count + GROUP - 1 - GROUP * length sums.old.items) }
    ensures longer { IsLonger sums.old.items sums.new.items }
{
    if count > GROUP * sums.len() {
        sums.push(0)?;
    }
    Ok(())
}

/// The sum of the numbers before `end`, given that of the numbers before `start`.
pub fn sum_to(numbers: &[u32], start: usize, end: usize, before: u32) -> u32
    requires within { start ≤ end }
    requires there { end ≤ length numbers.now }
    requires few { sum numbers.now < 2 ^ 32 }
    requires before { before ≡ sum (take start numbers.now) }
    ensures { result ≡ sum (take end numbers.now) }
{
    let mut before = before;
    'numbers: for at in start..end {
        before += numbers[at];
    }
    before
}

/// The place at which the prefix sums pass `wanted`, which is below the sum of all, and the sum of the numbers before
/// that place. The search begins at `start`, which must not be after it.
pub fn place_from(numbers: &[u32], start: usize, before: u32, wanted: u32) -> (usize, u32)
    requires few { sum numbers.now < 2 ^ 32 }
    requires before { before ≡ sum (take start numbers.now) }
    requires begun { before ≤ wanted }
    requires passed { wanted < sum numbers.now }
    ensures place { FallsOn numbers.now wanted result.0 }
    ensures before { result.1 ≡ sum (take result.0 numbers.now) }
{
    let mut before = before;
    'numbers: for at in start..numbers.len() {
        let next = before + numbers[at];
        if wanted < next {
            return (at, before);
        }
        before = next;
    }
    unreachable!()
}
