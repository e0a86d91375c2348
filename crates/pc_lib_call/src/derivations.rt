//! The commands of a source and a derivation.
ghost use Rattle.std.specs.Prelude.{◌≡◌, ◌≢◌, ◌↔◌};
ghost use Rattle.pc_refusals.specs.Verdict.{IsAccepting};
ghost use Rattle.pc_top.specs.CoreOf.{HasSafeCore, IsDerivable};
ghost use Rattle.pc_top.specs.Guarantees.{HasDecidedCore, HasFrozenCore, HasOwnedCore, HasProgressingCore};
ghost use Rattle.pc_top.specs.IsolatedCore.{HasIsolatedCore};
ghost use Rattle.pc_top.specs.Exact.{IsDerivationOf};
ghost use Rattle.pc_lib_buffers.specs.Laying.{buffer};
ghost use Rattle.pc_lib_buffers.specs.Points.{PointsIntoSource};
ghost use Rattle.pc_lib_call.specs.Answers.{CallAnswers};
ghost use Rattle.pc_lib_call.specs.Verdicts.{IsJudged, IsUpgraded};

use crate::asking::ask;
use pc_args::written_forms_are_taken;
use pc_lib_buffers::{Answer, Beside};
use pc_top::{derivable_sources_are_reliable, judged_statuses_are_exact};
use std::alloc::Global;

/// Reports whether a text is a derivation of the source.
pub fn judge(
    alloc: Global,
    source: &[u8],
    derivation: &[u8],
    out: &mut [u8],
    err: &mut [u8],
    answer: &mut Answer,
) -> u8
    ensures answers { CallAnswers (IsJudged source.now derivation.now) (PointsIntoSource source.now) result (buffer out.old out.new answer.new.out_length) (buffer err.old err.new answer.new.err_length) answer.new.place }
    ensures exact { result ≢ 11 → (result ≡ 0) ↔ IsDerivationOf source.now derivation.now }
    ensures accepted { IsAccepting result → IsDerivable source.now }
    ensures safe { IsAccepting result → HasSafeCore source.now }
    ensures isolated { IsAccepting result → HasIsolatedCore source.now }
    ensures frozen { IsAccepting result → HasFrozenCore source.now }
    ensures owned { IsAccepting result → HasOwnedCore source.now }
    ensures progresses { IsAccepting result → HasProgressingCore source.now }
    ensures decided { IsAccepting result → HasDecidedCore source.now }
{
    written_forms_are_taken();
    derivable_sources_are_reliable();
    judged_statuses_are_exact();
    ask(
        alloc,
        &["judge", "source", "derivation"],
        source,
        Beside::Derivation(derivation),
        out,
        err,
        answer,
    )
}

/// Judges a derivation of the source as `judge` does, and writes it in version 2 of its text: a line for each node,
/// with its note.
pub fn upgrade(
    alloc: Global,
    source: &[u8],
    derivation: &[u8],
    out: &mut [u8],
    err: &mut [u8],
    answer: &mut Answer,
) -> u8
    ensures answers { CallAnswers (IsUpgraded source.now derivation.now) (PointsIntoSource source.now) result (buffer out.old out.new answer.new.out_length) (buffer err.old err.new answer.new.err_length) answer.new.place }
    ensures exact { result ≢ 11 → (result ≡ 0) ↔ IsDerivationOf source.now derivation.now }
    ensures accepted { IsAccepting result → IsDerivable source.now }
    ensures safe { IsAccepting result → HasSafeCore source.now }
    ensures isolated { IsAccepting result → HasIsolatedCore source.now }
    ensures frozen { IsAccepting result → HasFrozenCore source.now }
    ensures owned { IsAccepting result → HasOwnedCore source.now }
    ensures progresses { IsAccepting result → HasProgressingCore source.now }
    ensures decided { IsAccepting result → HasDecidedCore source.now }
{
    written_forms_are_taken();
    derivable_sources_are_reliable();
    judged_statuses_are_exact();
    ask(
        alloc,
        &["upgrade", "source", "derivation"],
        source,
        Beside::Derivation(derivation),
        out,
        err,
        answer,
    )
}
