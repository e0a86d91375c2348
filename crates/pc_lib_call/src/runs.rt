//! The commands of a source and a schedule.
ghost use Rattle.std.specs.Prelude.{◌≡◌, ◌≢◌, ◌↔◌};
ghost use Rattle.pc_refusals.specs.Verdict.{IsAccepting};
ghost use Rattle.pc_top.specs.CoreOf.{HasSafeCore, IsDerivable, IsUnderivable};
ghost use Rattle.pc_top.specs.Guarantees.{HasDecidedCore, HasFrozenCore, HasOwnedCore, HasProgressingCore};
ghost use Rattle.pc_top.specs.IsolatedCore.{HasIsolatedCore};
ghost use Rattle.pc_lib_buffers.specs.Laying.{buffer};
ghost use Rattle.pc_lib_buffers.specs.Points.{PointsIntoBoth};
ghost use Rattle.pc_lib_call.specs.Answers.{CallAnswers};
ghost use Rattle.pc_lib_call.specs.Verdicts.{IsEventsOf, IsRunOf, IsSwapped, IsTraced, MayBePlace};

use crate::asking::ask;
use itoa::Buffer;
use pc_args::written_forms_are_taken;
use pc_lib_buffers::{Answer, Beside};
use pc_top::{derivable_sources_are_reliable, statuses_are_exact};
use std::alloc::Global;

/// Checks the source, and writes what it prints over the schedule.
pub fn run(
    alloc: Global,
    source: &[u8],
    schedule: &[u8],
    out: &mut [u8],
    err: &mut [u8],
    answer: &mut Answer,
) -> u8
    ensures answers { CallAnswers (IsRunOf source.now schedule.now) (PointsIntoBoth source.now schedule.now) result (buffer out.old out.new answer.new.out_length) (buffer err.old err.new answer.new.err_length) answer.new.place }
    ensures exact { result ≢ 11 → (result ≡ 1) ↔ IsUnderivable source.now }
    ensures accepted { IsAccepting result → IsDerivable source.now }
    ensures safe { IsAccepting result → HasSafeCore source.now }
    ensures isolated { IsAccepting result → HasIsolatedCore source.now }
    ensures frozen { IsAccepting result → HasFrozenCore source.now }
    ensures owned { IsAccepting result → HasOwnedCore source.now }
    ensures progresses { IsAccepting result → HasProgressingCore source.now }
    ensures decided { IsAccepting result → HasDecidedCore source.now }
{
    written_forms_are_taken();
    derivable_sources_are_reliable();
    statuses_are_exact();
    ask(
        alloc,
        &["run", "source", "schedule"],
        source,
        Beside::Schedule(schedule),
        out,
        err,
        answer,
    )
}

/// Checks the source, and writes each access of its run over the schedule to a field, with its clock.
pub fn trace(
    alloc: Global,
    source: &[u8],
    schedule: &[u8],
    out: &mut [u8],
    err: &mut [u8],
    answer: &mut Answer,
) -> u8
    ensures answers { CallAnswers (IsTraced source.now schedule.now) (PointsIntoBoth source.now schedule.now) result (buffer out.old out.new answer.new.out_length) (buffer err.old err.new answer.new.err_length) answer.new.place }
    ensures exact { result ≢ 11 → (result ≡ 1) ↔ IsUnderivable source.now }
    ensures accepted { IsAccepting result → IsDerivable source.now }
    ensures safe { IsAccepting result → HasSafeCore source.now }
    ensures isolated { IsAccepting result → HasIsolatedCore source.now }
    ensures frozen { IsAccepting result → HasFrozenCore source.now }
    ensures owned { IsAccepting result → HasOwnedCore source.now }
    ensures progresses { IsAccepting result → HasProgressingCore source.now }
    ensures decided { IsAccepting result → HasDecidedCore source.now }
{
    written_forms_are_taken();
    derivable_sources_are_reliable();
    statuses_are_exact();
    ask(
        alloc,
        &["trace", "source", "schedule"],
        source,
        Beside::Schedule(schedule),
        out,
        err,
        answer,
    )
}

/// Checks the source, and writes each event of its run over the schedule, with its clock.
pub fn events(
    alloc: Global,
    source: &[u8],
    schedule: &[u8],
    out: &mut [u8],
    err: &mut [u8],
    answer: &mut Answer,
) -> u8
    ensures answers { CallAnswers (IsEventsOf source.now schedule.now) (PointsIntoBoth source.now schedule.now) result (buffer out.old out.new answer.new.out_length) (buffer err.old err.new answer.new.err_length) answer.new.place }
    ensures exact { result ≢ 11 → (result ≡ 1) ↔ IsUnderivable source.now }
    ensures accepted { IsAccepting result → IsDerivable source.now }
    ensures safe { IsAccepting result → HasSafeCore source.now }
    ensures isolated { IsAccepting result → HasIsolatedCore source.now }
    ensures frozen { IsAccepting result → HasFrozenCore source.now }
    ensures owned { IsAccepting result → HasOwnedCore source.now }
    ensures progresses { IsAccepting result → HasProgressingCore source.now }
    ensures decided { IsAccepting result → HasDecidedCore source.now }
{
    written_forms_are_taken();
    derivable_sources_are_reliable();
    statuses_are_exact();
    ask(
        alloc,
        &["events", "source", "schedule"],
        source,
        Beside::Schedule(schedule),
        out,
        err,
        answer,
    )
}

/// Exchanges the turns at a place of the schedule, counted from 1, and at the next, or says why they keep their order.
/// A place that is not from 1 to 9,999,999 is refused with 2.
pub fn swap(
    alloc: Global,
    source: &[u8],
    schedule: &[u8],
    place: u32,
    out: &mut [u8],
    err: &mut [u8],
    answer: &mut Answer,
) -> u8
    ensures answers { CallAnswers (IsSwapped source.now schedule.now place) (PointsIntoBoth source.now schedule.now) result (buffer out.old out.new answer.new.out_length) (buffer err.old err.new answer.new.err_length) answer.new.place }
    ensures exact { MayBePlace place → result ≢ 11 → (result ≡ 1) ↔ IsUnderivable source.now }
    ensures accepted { IsAccepting result → IsDerivable source.now }
    ensures safe { IsAccepting result → HasSafeCore source.now }
    ensures isolated { IsAccepting result → HasIsolatedCore source.now }
    ensures frozen { IsAccepting result → HasFrozenCore source.now }
    ensures owned { IsAccepting result → HasOwnedCore source.now }
    ensures progresses { IsAccepting result → HasProgressingCore source.now }
    ensures decided { IsAccepting result → HasDecidedCore source.now }
{
    written_forms_are_taken();
    derivable_sources_are_reliable();
    statuses_are_exact();
    let mut digits = Buffer::new();
    let place = digits.format(place);
    ask(
        alloc,
        &["swap", "source", "schedule", place],
        source,
        Beside::Schedule(schedule),
        out,
        err,
        answer,
    )
}
