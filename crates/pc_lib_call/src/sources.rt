//! The commands of a source alone.
ghost use Rattle.std.specs.Prelude.{◌≡◌, ◌≢◌, ◌↔◌};
ghost use Rattle.pc_refusals.specs.Verdict.{IsAccepting};
ghost use Rattle.pc_top.specs.CoreOf.{HasSafeCore, IsDerivable, IsUnderivable};
ghost use Rattle.pc_top.specs.Guarantees.{HasDecidedCore, HasFrozenCore, HasOwnedCore, HasProgressingCore};
ghost use Rattle.pc_top.specs.IsolatedCore.{HasIsolatedCore};
ghost use Rattle.pc_lib_buffers.specs.Laying.{buffer};
ghost use Rattle.pc_lib_buffers.specs.Points.{PointsIntoSource};
ghost use Rattle.pc_lib_call.specs.Answers.{CallAnswers};
ghost use Rattle.pc_lib_call.specs.Verdicts.{IsChecked, IsExplained, IsPlacesOf, IsSendsOf, IsShown};

use crate::asking::ask;
use pc_args::written_forms_are_taken;
use pc_lib_buffers::{Answer, Beside};
use pc_top::{derivable_sources_are_reliable, statuses_are_exact};
use std::alloc::Global;

/// Looks for a derivation of the source, and writes it.
pub fn check(
    alloc: Global,
    source: &[u8],
    out: &mut [u8],
    err: &mut [u8],
    answer: &mut Answer,
) -> u8
    ensures answers { CallAnswers (IsChecked source.now) (PointsIntoSource source.now) result (buffer out.old out.new answer.new.out_length) (buffer err.old err.new answer.new.err_length) answer.new.place }
    ensures exact { result ≢ 11 → ((result ≡ 0) ↔ IsDerivable source.now) × ((result ≡ 1) ↔ IsUnderivable source.now) }
    ensures safe { IsAccepting result → HasSafeCore source.now }
    ensures isolated { IsAccepting result → HasIsolatedCore source.now }
    ensures frozen { IsAccepting result → HasFrozenCore source.now }
    ensures owned { IsAccepting result → HasOwnedCore source.now }
    ensures progresses { IsAccepting result → HasProgressingCore source.now }
    ensures decided { IsAccepting result → HasDecidedCore source.now }
{
    written_forms_are_taken();
    derivable_sources_are_reliable();
    statuses_are_exact();
    ask(
        alloc,
        &["check", "source"],
        source,
        Beside::Nothing,
        out,
        err,
        answer,
    )
}

/// Prints the source.
pub fn show(alloc: Global, source: &[u8], out: &mut [u8], err: &mut [u8], answer: &mut Answer) -> u8
    ensures { CallAnswers (IsShown source.now) (PointsIntoSource source.now) result (buffer out.old out.new answer.new.out_length) (buffer err.old err.new answer.new.err_length) answer.new.place }
{
    written_forms_are_taken();
    ask(
        alloc,
        &["show", "source"],
        source,
        Beside::Nothing,
        out,
        err,
        answer,
    )
}

/// Writes the entities, fields, methods, slots and nodes of the source's core, with their places in it.
pub fn places(
    alloc: Global,
    source: &[u8],
    out: &mut [u8],
    err: &mut [u8],
    answer: &mut Answer,
) -> u8
    ensures { CallAnswers (IsPlacesOf source.now) (PointsIntoSource source.now) result (buffer out.old out.new answer.new.out_length) (buffer err.old err.new answer.new.err_length) answer.new.place }
{
    written_forms_are_taken();
    ask(
        alloc,
        &["places", "source"],
        source,
        Beside::Nothing,
        out,
        err,
        answer,
    )
}

/// Reports which entity of the source may send which message in any run, and what is never sent.
pub fn sends(
    alloc: Global,
    source: &[u8],
    out: &mut [u8],
    err: &mut [u8],
    answer: &mut Answer,
) -> u8
    ensures answers { CallAnswers (IsSendsOf source.now) (PointsIntoSource source.now) result (buffer out.old out.new answer.new.out_length) (buffer err.old err.new answer.new.err_length) answer.new.place }
    ensures exact { result ≢ 11 → (result ≡ 1) ↔ IsUnderivable source.now }
    ensures accepted { IsAccepting result → IsDerivable source.now }
    ensures safe { IsAccepting result → HasSafeCore source.now }
    ensures isolated { IsAccepting result → HasIsolatedCore source.now }
    ensures frozen { IsAccepting result → HasFrozenCore source.now }
    ensures owned { IsAccepting result → HasOwnedCore source.now }
    ensures progresses { IsAccepting result → HasProgressingCore source.now }
    ensures decided { IsAccepting result → HasDecidedCore source.now }
{
    written_forms_are_taken();
    derivable_sources_are_reliable();
    statuses_are_exact();
    ask(
        alloc,
        &["sends", "source"],
        source,
        Beside::Nothing,
        out,
        err,
        answer,
    )
}

/// Explains why `check` refuses the source with 1 or 4, or says that it is accepted; whatever else `check` refuses is
/// refused.
pub fn explain(
    alloc: Global,
    source: &[u8],
    out: &mut [u8],
    err: &mut [u8],
    answer: &mut Answer,
) -> u8
    ensures { CallAnswers (IsExplained source.now) (PointsIntoSource source.now) result (buffer out.old out.new answer.new.out_length) (buffer err.old err.new answer.new.err_length) answer.new.place }
{
    written_forms_are_taken();
    ask(
        alloc,
        &["explain", "source"],
        source,
        Beside::Nothing,
        out,
        err,
        answer,
    )
}
