//! The commands for C: one export for each call of `pc_lib_call`, with its contract.
//!
//! A slice crosses as a pointer and a length, and `Global` takes up no bytes, so C passes nothing for it. `lib/rcap.h`
//! has the declarations, and what a caller must ensure.
//!
//! How the code is to be read is in `CONTRIBUTING.md` (How to read the code).
#![tactic(auto)]

ghost use Rattle.std.specs.Prelude.{◌≡◌, ◌≢◌, ◌↔◌};
ghost use Rattle.pc_refusals.specs.Verdict.{IsAccepting};
ghost use Rattle.pc_top.specs.CoreOf.{HasSafeCore, IsDerivable, IsUnderivable};
ghost use Rattle.pc_top.specs.Guarantees.{HasDecidedCore, HasFrozenCore, HasOwnedCore, HasProgressingCore};
ghost use Rattle.pc_top.specs.IsolatedCore.{HasIsolatedCore};
ghost use Rattle.pc_top.specs.Exact.{IsDerivationOf};
ghost use Rattle.pc_lib_buffers.specs.Laying.{buffer};
ghost use Rattle.pc_lib_buffers.specs.Points.{PointsIntoBoth, PointsIntoSource};
ghost use Rattle.pc_lib_call.specs.Answers.{CallAnswers};
ghost use Rattle.pc_lib_call.specs.Verdicts.{IsChecked, IsEventsOf, IsExplained, IsJudged, IsOutcomesOf, IsPlacesOf, IsPlayed, IsRunOf, IsScheduleOf, IsSendsOf, IsShown, IsSwapped, IsTraced, IsUpgraded, MayBeCount, MayBePlace};

use pc_lib_buffers::Answer;
use std::alloc::Global;

/// Looks for a derivation of the source, and writes it.
#[unsafe(no_mangle)]
pub extern "C" fn rcap_check(
    alloc: Global,
    source: &[u8],
    out: &mut [u8],
    err: &mut [u8],
    answer: &mut Answer,
) -> u8
    ensures answers { CallAnswers (IsChecked source.now) (PointsIntoSource source.now) result (buffer out.old out.new answer.new.out_length) (buffer err.old err.new answer.new.err_length) answer.new.place }
    ensures exact { result ≢ 11 → ((result ≡ 0) ↔ IsDerivable source.now) × ((result ≡ 1) ↔ IsUnderivable source.now) }
    ensures safe { IsAccepting result → HasSafeCore source.now }
    ensures isolated { IsAccepting result → HasIsolatedCore source.now }
    ensures frozen { IsAccepting result → HasFrozenCore source.now }
    ensures owned { IsAccepting result → HasOwnedCore source.now }
    ensures progresses { IsAccepting result → HasProgressingCore source.now }
    ensures decided { IsAccepting result → HasDecidedCore source.now }
{
    pc_lib_call::check(alloc, source, out, err, answer)
}

/// Reports whether a text is a derivation of the source.
#[unsafe(no_mangle)]
pub extern "C" fn rcap_judge(
    alloc: Global,
    source: &[u8],
    derivation: &[u8],
    out: &mut [u8],
    err: &mut [u8],
    answer: &mut Answer,
) -> u8
    ensures answers { CallAnswers (IsJudged source.now derivation.now) (PointsIntoSource source.now) result (buffer out.old out.new answer.new.out_length) (buffer err.old err.new answer.new.err_length) answer.new.place }
    ensures exact { result ≢ 11 → (result ≡ 0) ↔ IsDerivationOf source.now derivation.now }
    ensures accepted { IsAccepting result → IsDerivable source.now }
    ensures safe { IsAccepting result → HasSafeCore source.now }
    ensures isolated { IsAccepting result → HasIsolatedCore source.now }
    ensures frozen { IsAccepting result → HasFrozenCore source.now }
    ensures owned { IsAccepting result → HasOwnedCore source.now }
    ensures progresses { IsAccepting result → HasProgressingCore source.now }
    ensures decided { IsAccepting result → HasDecidedCore source.now }
{
    pc_lib_call::judge(alloc, source, derivation, out, err, answer)
}

/// Judges a derivation of the source as `judge` does, and writes it in version 2 of its text: a line for each node,
/// with its note.
#[unsafe(no_mangle)]
pub extern "C" fn rcap_upgrade(
    alloc: Global,
    source: &[u8],
    derivation: &[u8],
    out: &mut [u8],
    err: &mut [u8],
    answer: &mut Answer,
) -> u8
    ensures answers { CallAnswers (IsUpgraded source.now derivation.now) (PointsIntoSource source.now) result (buffer out.old out.new answer.new.out_length) (buffer err.old err.new answer.new.err_length) answer.new.place }
    ensures exact { result ≢ 11 → (result ≡ 0) ↔ IsDerivationOf source.now derivation.now }
    ensures accepted { IsAccepting result → IsDerivable source.now }
    ensures safe { IsAccepting result → HasSafeCore source.now }
    ensures isolated { IsAccepting result → HasIsolatedCore source.now }
    ensures frozen { IsAccepting result → HasFrozenCore source.now }
    ensures owned { IsAccepting result → HasOwnedCore source.now }
    ensures progresses { IsAccepting result → HasProgressingCore source.now }
    ensures decided { IsAccepting result → HasDecidedCore source.now }
{
    pc_lib_call::upgrade(alloc, source, derivation, out, err, answer)
}

/// Checks the source, and writes what it prints over the schedule.
#[unsafe(no_mangle)]
pub extern "C" fn rcap_run(
    alloc: Global,
    source: &[u8],
    schedule: &[u8],
    out: &mut [u8],
    err: &mut [u8],
    answer: &mut Answer,
) -> u8
    ensures answers { CallAnswers (IsRunOf source.now schedule.now) (PointsIntoBoth source.now schedule.now) result (buffer out.old out.new answer.new.out_length) (buffer err.old err.new answer.new.err_length) answer.new.place }
    ensures exact { result ≢ 11 → (result ≡ 1) ↔ IsUnderivable source.now }
    ensures accepted { IsAccepting result → IsDerivable source.now }
    ensures safe { IsAccepting result → HasSafeCore source.now }
    ensures isolated { IsAccepting result → HasIsolatedCore source.now }
    ensures frozen { IsAccepting result → HasFrozenCore source.now }
    ensures owned { IsAccepting result → HasOwnedCore source.now }
    ensures progresses { IsAccepting result → HasProgressingCore source.now }
    ensures decided { IsAccepting result → HasDecidedCore source.now }
{
    pc_lib_call::run(alloc, source, schedule, out, err, answer)
}

/// Prints the source.
#[unsafe(no_mangle)]
pub extern "C" fn rcap_show(
    alloc: Global,
    source: &[u8],
    out: &mut [u8],
    err: &mut [u8],
    answer: &mut Answer,
) -> u8
    ensures { CallAnswers (IsShown source.now) (PointsIntoSource source.now) result (buffer out.old out.new answer.new.out_length) (buffer err.old err.new answer.new.err_length) answer.new.place }
{
    pc_lib_call::show(alloc, source, out, err, answer)
}

/// Checks the source, and writes each access of its run over the schedule to a field, with its clock.
#[unsafe(no_mangle)]
pub extern "C" fn rcap_trace(
    alloc: Global,
    source: &[u8],
    schedule: &[u8],
    out: &mut [u8],
    err: &mut [u8],
    answer: &mut Answer,
) -> u8
    ensures answers { CallAnswers (IsTraced source.now schedule.now) (PointsIntoBoth source.now schedule.now) result (buffer out.old out.new answer.new.out_length) (buffer err.old err.new answer.new.err_length) answer.new.place }
    ensures exact { result ≢ 11 → (result ≡ 1) ↔ IsUnderivable source.now }
    ensures accepted { IsAccepting result → IsDerivable source.now }
    ensures safe { IsAccepting result → HasSafeCore source.now }
    ensures isolated { IsAccepting result → HasIsolatedCore source.now }
    ensures frozen { IsAccepting result → HasFrozenCore source.now }
    ensures owned { IsAccepting result → HasOwnedCore source.now }
    ensures progresses { IsAccepting result → HasProgressingCore source.now }
    ensures decided { IsAccepting result → HasDecidedCore source.now }
{
    pc_lib_call::trace(alloc, source, schedule, out, err, answer)
}

/// Exchanges the turns at a place of the schedule, counted from 1, and at the next, or says why they keep their order.
/// A place that is not from 1 to 9,999,999 is refused with 2.
#[unsafe(no_mangle)]
pub extern "C" fn rcap_swap(
    alloc: Global,
    source: &[u8],
    schedule: &[u8],
    place: u32,
    out: &mut [u8],
    err: &mut [u8],
    answer: &mut Answer,
) -> u8
    ensures answers { CallAnswers (IsSwapped source.now schedule.now place) (PointsIntoBoth source.now schedule.now) result (buffer out.old out.new answer.new.out_length) (buffer err.old err.new answer.new.err_length) answer.new.place }
    ensures exact { MayBePlace place → result ≢ 11 → (result ≡ 1) ↔ IsUnderivable source.now }
    ensures accepted { IsAccepting result → IsDerivable source.now }
    ensures safe { IsAccepting result → HasSafeCore source.now }
    ensures isolated { IsAccepting result → HasIsolatedCore source.now }
    ensures frozen { IsAccepting result → HasFrozenCore source.now }
    ensures owned { IsAccepting result → HasOwnedCore source.now }
    ensures progresses { IsAccepting result → HasProgressingCore source.now }
    ensures decided { IsAccepting result → HasDecidedCore source.now }
{
    pc_lib_call::swap(alloc, source, schedule, place, out, err, answer)
}

/// Reports which entity of the source may send which message in any run, and what is never sent.
#[unsafe(no_mangle)]
pub extern "C" fn rcap_sends(
    alloc: Global,
    source: &[u8],
    out: &mut [u8],
    err: &mut [u8],
    answer: &mut Answer,
) -> u8
    ensures answers { CallAnswers (IsSendsOf source.now) (PointsIntoSource source.now) result (buffer out.old out.new answer.new.out_length) (buffer err.old err.new answer.new.err_length) answer.new.place }
    ensures exact { result ≢ 11 → (result ≡ 1) ↔ IsUnderivable source.now }
    ensures accepted { IsAccepting result → IsDerivable source.now }
    ensures safe { IsAccepting result → HasSafeCore source.now }
    ensures isolated { IsAccepting result → HasIsolatedCore source.now }
    ensures frozen { IsAccepting result → HasFrozenCore source.now }
    ensures owned { IsAccepting result → HasOwnedCore source.now }
    ensures progresses { IsAccepting result → HasProgressingCore source.now }
    ensures decided { IsAccepting result → HasDecidedCore source.now }
{
    pc_lib_call::sends(alloc, source, out, err, answer)
}

/// Checks the source, and writes the schedule that a seed chooses for it.
#[unsafe(no_mangle)]
pub extern "C" fn rcap_schedule(
    alloc: Global,
    source: &[u8],
    seed: u64,
    out: &mut [u8],
    err: &mut [u8],
    answer: &mut Answer,
) -> u8
    ensures answers { CallAnswers (IsScheduleOf source.now seed) (PointsIntoSource source.now) result (buffer out.old out.new answer.new.out_length) (buffer err.old err.new answer.new.err_length) answer.new.place }
    ensures exact { result ≢ 11 → (result ≡ 1) ↔ IsUnderivable source.now }
    ensures accepted { IsAccepting result → IsDerivable source.now }
    ensures safe { IsAccepting result → HasSafeCore source.now }
    ensures isolated { IsAccepting result → HasIsolatedCore source.now }
    ensures frozen { IsAccepting result → HasFrozenCore source.now }
    ensures owned { IsAccepting result → HasOwnedCore source.now }
    ensures progresses { IsAccepting result → HasProgressingCore source.now }
    ensures decided { IsAccepting result → HasDecidedCore source.now }
{
    pc_lib_call::schedule(alloc, source, seed, out, err, answer)
}

/// Checks the source, and writes what it prints over the schedule that a seed chooses, and the numbers of that run.
#[unsafe(no_mangle)]
pub extern "C" fn rcap_play(
    alloc: Global,
    source: &[u8],
    seed: u64,
    out: &mut [u8],
    err: &mut [u8],
    answer: &mut Answer,
) -> u8
    ensures answers { CallAnswers (IsPlayed source.now seed) (PointsIntoSource source.now) result (buffer out.old out.new answer.new.out_length) (buffer err.old err.new answer.new.err_length) answer.new.place }
    ensures exact { result ≢ 11 → (result ≡ 1) ↔ IsUnderivable source.now }
    ensures accepted { IsAccepting result → IsDerivable source.now }
    ensures safe { IsAccepting result → HasSafeCore source.now }
    ensures isolated { IsAccepting result → HasIsolatedCore source.now }
    ensures frozen { IsAccepting result → HasFrozenCore source.now }
    ensures owned { IsAccepting result → HasOwnedCore source.now }
    ensures progresses { IsAccepting result → HasProgressingCore source.now }
    ensures decided { IsAccepting result → HasDecidedCore source.now }
{
    pc_lib_call::play(alloc, source, seed, out, err, answer)
}

/// Checks the source, and writes each different outcome of the plays of the seeds below a count once. A count that is not from 1 to
/// 10,000 is refused with 2.
#[unsafe(no_mangle)]
pub extern "C" fn rcap_outcomes(
    alloc: Global,
    source: &[u8],
    count: u32,
    out: &mut [u8],
    err: &mut [u8],
    answer: &mut Answer,
) -> u8
    ensures answers { CallAnswers (IsOutcomesOf source.now count) (PointsIntoSource source.now) result (buffer out.old out.new answer.new.out_length) (buffer err.old err.new answer.new.err_length) answer.new.place }
    ensures exact { MayBeCount count → result ≢ 11 → (result ≡ 1) ↔ IsUnderivable source.now }
    ensures accepted { IsAccepting result → IsDerivable source.now }
    ensures safe { IsAccepting result → HasSafeCore source.now }
    ensures isolated { IsAccepting result → HasIsolatedCore source.now }
    ensures frozen { IsAccepting result → HasFrozenCore source.now }
    ensures owned { IsAccepting result → HasOwnedCore source.now }
    ensures progresses { IsAccepting result → HasProgressingCore source.now }
    ensures decided { IsAccepting result → HasDecidedCore source.now }
{
    pc_lib_call::outcomes(alloc, source, count, out, err, answer)
}

/// Writes the entities, fields, methods, slots and nodes of the source's core, with their places in it.
#[unsafe(no_mangle)]
pub extern "C" fn rcap_places(
    alloc: Global,
    source: &[u8],
    out: &mut [u8],
    err: &mut [u8],
    answer: &mut Answer,
) -> u8
    ensures { CallAnswers (IsPlacesOf source.now) (PointsIntoSource source.now) result (buffer out.old out.new answer.new.out_length) (buffer err.old err.new answer.new.err_length) answer.new.place }
{
    pc_lib_call::places(alloc, source, out, err, answer)
}

/// Checks the source, and writes each event of its run over the schedule, with its clock.
#[unsafe(no_mangle)]
pub extern "C" fn rcap_events(
    alloc: Global,
    source: &[u8],
    schedule: &[u8],
    out: &mut [u8],
    err: &mut [u8],
    answer: &mut Answer,
) -> u8
    ensures answers { CallAnswers (IsEventsOf source.now schedule.now) (PointsIntoBoth source.now schedule.now) result (buffer out.old out.new answer.new.out_length) (buffer err.old err.new answer.new.err_length) answer.new.place }
    ensures exact { result ≢ 11 → (result ≡ 1) ↔ IsUnderivable source.now }
    ensures accepted { IsAccepting result → IsDerivable source.now }
    ensures safe { IsAccepting result → HasSafeCore source.now }
    ensures isolated { IsAccepting result → HasIsolatedCore source.now }
    ensures frozen { IsAccepting result → HasFrozenCore source.now }
    ensures owned { IsAccepting result → HasOwnedCore source.now }
    ensures progresses { IsAccepting result → HasProgressingCore source.now }
    ensures decided { IsAccepting result → HasDecidedCore source.now }
{
    pc_lib_call::events(alloc, source, schedule, out, err, answer)
}

/// Explains why `check` refuses the source with 1 or 4, or says that it is accepted; whatever else `check` refuses is
/// refused.
#[unsafe(no_mangle)]
pub extern "C" fn rcap_explain(
    alloc: Global,
    source: &[u8],
    out: &mut [u8],
    err: &mut [u8],
    answer: &mut Answer,
) -> u8
    ensures { CallAnswers (IsExplained source.now) (PointsIntoSource source.now) result (buffer out.old out.new answer.new.out_length) (buffer err.old err.new answer.new.err_length) answer.new.place }
{
    pc_lib_call::explain(alloc, source, out, err, answer)
}
