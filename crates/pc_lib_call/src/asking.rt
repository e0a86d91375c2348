//! Asking `rcap` over texts in memory.
ghost use Rattle.std.specs.Prelude.{◌≡◌};
ghost use Rattle.pc_args.specs.Asked.{texts};
ghost use Rattle.pc_refusals.specs.Verdict.{IsAccepting};
ghost use Rattle.pc_top.specs.CoreOf.{HasSafeCore, IsDerivable};
ghost use Rattle.pc_top.specs.IsolatedCore.{HasIsolatedCore};
ghost use Rattle.pc_lib_buffers.specs.Holding.{HoldsTexts};
ghost use Rattle.pc_lib_buffers.specs.Laying.{buffer};
ghost use Rattle.pc_lib_buffers.specs.Points.{Points};
ghost use Rattle.pc_lib_call.specs.Answers.{CallAnswers};
ghost use Rattle.pc_lib_call.specs.Inner.Shelves.{IsVerdictOn, OfSourceOn};

use pc_io::{NeverFiles, NeverSink};
use pc_lib_buffers::{Answer, Beside, hand_over, make_files, refuse_memory};
use pc_referee::Rules;
use pc_top::rcap;
use std::alloc::Global;

// Does what the words ask for on these files, which have these texts.
fn ask_files(
    alloc: Global,
    words: &[&str],
    files: &mut NeverFiles,
    source: &[u8],
    beside: Beside<'_>,
    out: &mut [u8],
    err: &mut [u8],
    answer: &mut Answer,
) -> u8
    requires { HoldsTexts files.old.entries source.now beside }
    ensures answers { CallAnswers (IsVerdictOn source.now beside.entry (texts words.now)) (Points source.now beside.entry) result (buffer out.old out.new answer.new.out_length) (buffer err.old err.new answer.new.err_length) answer.new.place }
    ensures accepted { IsAccepting result → OfSourceOn IsDerivable source.now beside.entry (texts words.now) }
    ensures safe { IsAccepting result → OfSourceOn HasSafeCore source.now beside.entry (texts words.now) }
    ensures isolated { IsAccepting result → OfSourceOn HasIsolatedCore source.now beside.entry (texts words.now) }
{
    let mut to_out = NeverSink::new(alloc);
    let mut to_err = NeverSink::new(alloc);
    let mut referee = Rules;
    let status = rcap(alloc, words, files, &mut to_out, &mut to_err, &mut referee);
    hand_over(
        alloc,
        status,
        to_out.bytes(),
        to_err.bytes(),
        source,
        beside,
        out,
        err,
        answer,
    )
}

/// Does what the words ask for on these texts.
pub fn ask(
    alloc: Global,
    words: &[&str],
    source: &[u8],
    beside: Beside<'_>,
    out: &mut [u8],
    err: &mut [u8],
    answer: &mut Answer,
) -> u8
    ensures answers { CallAnswers (IsVerdictOn source.now beside.entry (texts words.now)) (Points source.now beside.entry) result (buffer out.old out.new answer.new.out_length) (buffer err.old err.new answer.new.err_length) answer.new.place }
    ensures accepted { IsAccepting result → OfSourceOn IsDerivable source.now beside.entry (texts words.now) }
    ensures safe { IsAccepting result → OfSourceOn HasSafeCore source.now beside.entry (texts words.now) }
    ensures isolated { IsAccepting result → OfSourceOn HasIsolatedCore source.now beside.entry (texts words.now) }
{
    match make_files(alloc, source, beside) {
        Ok(mut files) => ask_files(alloc, words, &mut files, source, beside, out, err, answer),
        Err(_) => refuse_memory(answer),
    }
}
