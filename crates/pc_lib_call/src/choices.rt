//! The commands of a source and a number: schedules that are chosen.
ghost use Rattle.std.specs.Prelude.{◌≡◌, ◌≢◌, ◌↔◌};
ghost use Rattle.pc_refusals.specs.Verdict.{IsAccepting};
ghost use Rattle.pc_top.specs.CoreOf.{HasSafeCore, IsDerivable, IsUnderivable};
ghost use Rattle.pc_top.specs.Guarantees.{HasDecidedCore, HasFrozenCore, HasOwnedCore, HasProgressingCore};
ghost use Rattle.pc_top.specs.IsolatedCore.{HasIsolatedCore};
ghost use Rattle.pc_lib_buffers.specs.Laying.{buffer};
ghost use Rattle.pc_lib_buffers.specs.Points.{PointsIntoSource};
ghost use Rattle.pc_lib_call.specs.Answers.{CallAnswers};
ghost use Rattle.pc_lib_call.specs.Verdicts.{IsOutcomesOf, IsPlayed, IsScheduleOf, MayBeCount};

use crate::asking::ask;
use itoa::Buffer;
use pc_args::written_forms_are_taken;
use pc_lib_buffers::{Answer, Beside};
use pc_top::{derivable_sources_are_reliable, statuses_are_exact};
use std::alloc::Global;

/// Checks the source, and writes the schedule that a seed chooses for it.
pub fn schedule(
    alloc: Global,
    source: &[u8],
    seed: u64,
    out: &mut [u8],
    err: &mut [u8],
    answer: &mut Answer,
) -> u8
    ensures answers { CallAnswers (IsScheduleOf source.now seed) (PointsIntoSource source.now) result (buffer out.old out.new answer.new.out_length) (buffer err.old err.new answer.new.err_length) answer.new.place }
    ensures exact { result ≢ 11 → (result ≡ 1) ↔ IsUnderivable source.now }
    ensures accepted { IsAccepting result → IsDerivable source.now }
    ensures safe { IsAccepting result → HasSafeCore source.now }
    ensures isolated { IsAccepting result → HasIsolatedCore source.now }
    ensures frozen { IsAccepting result → HasFrozenCore source.now }
    ensures owned { IsAccepting result → HasOwnedCore source.now }
    ensures progresses { IsAccepting result → HasProgressingCore source.now }
    ensures decided { IsAccepting result → HasDecidedCore source.now }
{
    written_forms_are_taken();
    derivable_sources_are_reliable();
    statuses_are_exact();
    let mut digits = Buffer::new();
    let seed = digits.format(seed);
    ask(
        alloc,
        &["schedule", "source", seed],
        source,
        Beside::Nothing,
        out,
        err,
        answer,
    )
}

/// Checks the source, and writes what it prints over the schedule that a seed chooses, and the numbers of that run.
pub fn play(
    alloc: Global,
    source: &[u8],
    seed: u64,
    out: &mut [u8],
    err: &mut [u8],
    answer: &mut Answer,
) -> u8
    ensures answers { CallAnswers (IsPlayed source.now seed) (PointsIntoSource source.now) result (buffer out.old out.new answer.new.out_length) (buffer err.old err.new answer.new.err_length) answer.new.place }
    ensures exact { result ≢ 11 → (result ≡ 1) ↔ IsUnderivable source.now }
    ensures accepted { IsAccepting result → IsDerivable source.now }
    ensures safe { IsAccepting result → HasSafeCore source.now }
    ensures isolated { IsAccepting result → HasIsolatedCore source.now }
    ensures frozen { IsAccepting result → HasFrozenCore source.now }
    ensures owned { IsAccepting result → HasOwnedCore source.now }
    ensures progresses { IsAccepting result → HasProgressingCore source.now }
    ensures decided { IsAccepting result → HasDecidedCore source.now }
{
    written_forms_are_taken();
    derivable_sources_are_reliable();
    statuses_are_exact();
    let mut digits = Buffer::new();
    let seed = digits.format(seed);
    ask(
        alloc,
        &["play", "source", seed],
        source,
        Beside::Nothing,
        out,
        err,
        answer,
    )
}

/// Checks the source, and writes each different outcome of the plays of the seeds below a count once. A count that is not from 1 to
/// 10,000 is refused with 2.
pub fn outcomes(
    alloc: Global,
    source: &[u8],
    count: u32,
    out: &mut [u8],
    err: &mut [u8],
    answer: &mut Answer,
) -> u8
    ensures answers { CallAnswers (IsOutcomesOf source.now count) (PointsIntoSource source.now) result (buffer out.old out.new answer.new.out_length) (buffer err.old err.new answer.new.err_length) answer.new.place }
    ensures exact { MayBeCount count → result ≢ 11 → (result ≡ 1) ↔ IsUnderivable source.now }
    ensures accepted { IsAccepting result → IsDerivable source.now }
    ensures safe { IsAccepting result → HasSafeCore source.now }
    ensures isolated { IsAccepting result → HasIsolatedCore source.now }
    ensures frozen { IsAccepting result → HasFrozenCore source.now }
    ensures owned { IsAccepting result → HasOwnedCore source.now }
    ensures progresses { IsAccepting result → HasProgressingCore source.now }
    ensures decided { IsAccepting result → HasDecidedCore source.now }
{
    written_forms_are_taken();
    derivable_sources_are_reliable();
    statuses_are_exact();
    let mut digits = Buffer::new();
    let count = digits.format(count);
    ask(
        alloc,
        &["outcomes", "source", count],
        source,
        Beside::Nothing,
        out,
        err,
        answer,
    )
}
