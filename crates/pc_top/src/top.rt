//! The top call.
ghost use Rattle.std.specs.Prelude.{◌≡◌, ◌≤◌};
ghost use Rattle.pc_base.specs.Lists.{Text};
ghost use Rattle.pc_refusals.specs.Verdict.{Answer, Completes, files_change, IsAccepting};
ghost use Rattle.pc_refusals.specs.Inner.Answering.{EndsCommand};
ghost use Rattle.pc_top.specs.Asked.{Accepts, FailedIn, IsMadeDecided, IsMadeFrozen, IsMadeIsolated, IsMadeOwned, IsMadeProgressing, IsMadeSafe, IsVerdict, HasNoDerivation};
ghost use Rattle.pc_args.specs.Asked.{command_of, texts};
ghost use Rattle.pc_io.specs.Sink.{change};
ghost use Rattle.pc_top.specs.Inner.Asking.{AsksSo};
ghost use Rattle.pc_top.specs.OnOut.{OnOut, Swaps, Traces};
ghost use Rattle.pc_top.specs.Referee.{Asks};

use crate::commands::run_command;
use crate::laws::{
    derivable_sources_are_isolated, derivable_sources_are_reliable, derivable_sources_are_safe,
    refused_sources_have_no_derivation, tables_tell_of_every_run,
};
use pc_args::{WordsFault, read_words};
use pc_io::{Files, Sink};
use pc_referee::Referee;
use pc_refusals::{Stop, finish, refuse_words};
use std::alloc::Global;

/// Does what the words after the program's name ask for, and returns the exit status.
///
/// The status is 0 if the command is done, with its text on out, and otherwise that of the refusal, with its line on
/// err. It is 12 if a run or a play comes to a text that is too long, with what was printed on out and the line on err;
/// `swap`, `trace` and `events` write nothing then. It is 8 if something passes a limit, such as the bytes of a file,
/// the plays of `outcomes`, or the actors of a run if `trace` or `events` comes to a step that would make the 65th. It
/// is 15 if a schedule does not have two turns at the given place, 9 if a file of the command could not be read, 10 if
/// out or err failed, and 11 if memory ran out.
///
/// The following are written in one call of `put` each on out: a derivation, `accepted`, an explanation, a printed
/// tree, the core with its places, each printed text of a run or a play and its numbers, the first line of a generated
/// program, the report on two turns, all accesses or all events of a run with their clocks, the whole table of who
/// sends what, a schedule that a seed chooses, and a table of outcomes. The line on err is one call too; after a failed
/// call on out, nothing more is written. `judge` asks the referee about the nodes of the derivation, in order, up to
/// the first fault other than that of a declaration.
pub fn rcap<F: Files, O: Sink, E: Sink, R: Referee>(
    alloc: Global,
    words: &[&str],
    files: &mut F,
    out: &mut O,
    err: &mut E,
    referee: &mut R,
) -> u8
    // The known bytes of the files are unchanged, and the failures of a name, of out and of err are never taken back.
    ensures same { (n : Text) → F.bytes files.new n ≡ F.bytes files.old n }
    ensures later { (n : Text) → F.faults files.old n ≤ F.faults files.new n }
    ensures out_later { O.faults out.old ≤ O.faults out.new }
    ensures err_later { E.faults err.old ≤ E.faults err.new }

    // The status, the text on out and the line on err are those of a verdict on the words and the files, or the answer
    // is a fault with its cause, or memory ran out.
    ensures answers { let files = files_change (F.bytes files.old) (F.faults files.old) (F.faults files.new) (F.taken files.new) in
        Answer (IsVerdict files (texts words.now)) (FailedIn files (texts words.now))
        (change (O.written out.old) (O.written out.new) (O.faults out.old) (O.faults out.new))
        (change (E.written err.old) (E.written err.new) (E.faults err.old) (E.faults err.new)) result }

    // This clause and those up to `traces` speak of files whose bytes are known. The source that is accepted, or the
    // program that is generated, has a core, and the core has a derivation. A source that is only shown, explained or
    // listed with its places need not have one.
    ensures accepted { IsAccepting result → Accepts (F.bytes files.old) (texts words.now) }

    // What the program is for. This core is safe: after every list of actors, of any length, no two actors' next steps
    // touch the same field unless both read it, none lacks its value, slot, object, field or method, and none touches
    // what waits as an `iso` argument of a message or writes what waits as a `val` argument.
    ensures safe { IsAccepting result → IsMadeSafe (F.bytes files.old) (texts words.now) }

    // What waits is isolated in depth. After every list of actors, no actor's next step touches an object to which
    // fields lead from a waiting `iso` argument (fields declared `iso`, `trn` or `ref`), or one that leads there; none
    // writes an object that is seen from a waiting argument (an `iso` or `val` one, through fields that are not `tag`);
    // and what is inside one argument is neither inside nor seen from any other. It stays so until the message is
    // taken, which hands all of it over.
    ensures isolated { IsAccepting result → IsMadeIsolated (F.bytes files.old) (texts words.now) }

    // What is `val` is immutable for good. After every list of actors, an object to which fields that are not `tag`
    // lead from a waiting `val` argument, from a field declared `val`, or from `this` of a method with receiver `val`
    // that has begun, is written by no later step, and each of its fields holds for good what it holds. So does an
    // object that a step reads through an expression that a derivation of the core notes as `val`.
    ensures frozen { IsAccepting result → IsMadeFrozen (F.bytes files.old) (texts words.now) }

    // Objects have single owners. After every list of actors, what fields declared `iso`, `trn` or `ref` lead to from
    // an actor's own object, from `this` of a method with receiver `ref` that has begun, or from an object that the
    // actor is about to write, is touched by no other actor and shown by no waiting message; while only others step,
    // what the actor's own object leads to is unchanged. Whatever a step touches is touched by no other actor, or is
    // only read and immutable for good. An object that two actors touch, and one of them writes, was handed over
    // between them by messages.
    ensures owned { IsAccepting result → IsMadeOwned (F.bytes files.old) (texts words.now) }

    // No actor is stuck, and none waits for another: each is idle without a message, or takes its next step (or that
    // step would make a text that is too long). If all are idle, nothing changes any more.
    ensures progresses { IsAccepting result → IsMadeProgressing (F.bytes files.old) (texts words.now) }

    // Two schedules with as many steps of each actor, in which each mailbox gets its messages from the same senders in
    // the same order, lead to the same configuration.
    ensures decided { IsAccepting result → IsMadeDecided (F.bytes files.old) (texts words.now) }

    // A source or a generated program that is refused with status 1 has a core, and the core has no derivation.
    ensures refused { result ≡ 1 → HasNoDerivation (F.bytes files.old) (texts words.now) }

    // Depending on the command, this is on out: the derivation of the source, `accepted`, why the source is refused,
    // the text of the run, the printed tree, the core with its places, the generated program's numbers and the text of
    // its run, the exchanged schedule or why it stays, the accesses or the events of the run, the lines of who sends
    // what, a valid derivation in version 2 of its text, the schedule that a seed chooses, the text of its run, or the
    // table of the outcomes of some seeds. Of `swap`, `trace` and `events` it is that, or nothing. The lines of who
    // sends what are right about every run: over every list of actors, of any length, what an actor is about to send
    // has its line, and no message of a method that is reported as never sent waits anywhere.
    ensures writes { IsAccepting result → OnOut (F.bytes files.old) (texts words.now)
        (change (O.written out.old) (O.written out.new) (O.faults out.old) (O.faults out.new)) }

    // If `swap` exchanges two turns of a schedule, their steps are apart and all four move, and the schedule on out
    // leads to the same configuration as the other one. If it does not, the first part of being apart that fails is on
    // out.
    ensures swaps { result ≡ 0 → Swaps (F.bytes files.old) (texts words.now)
        (change (O.written out.old) (O.written out.new) (O.faults out.old) (O.faults out.new)) }

    // If `trace` is done, all accesses of the run are on out with their clocks. Of any two events of different actors
    // in the run that touch the same field of the same object, where one of them writes it, the earlier comes before
    // the later.
    ensures traces { result ≡ 0 → Traces (F.bytes files.old) (texts words.now)
        (change (O.written out.old) (O.written out.new) (O.faults out.old) (O.faults out.new)) }

    // If neither a sink failed nor a file whose failure would be an answer, the answer is a verdict, or memory ran out.
    ensures completes { let files = files_change (F.bytes files.old) (F.faults files.old) (F.faults files.new) (F.taken files.new) in
        Completes (IsVerdict files (texts words.now)) (FailedIn files (texts words.now))
        (change (O.written out.old) (O.written out.new) (O.faults out.old) (O.faults out.new))
        (change (E.written err.old) (E.written err.new) (E.faults err.old) (E.faults err.new)) result }

    // If the status of `judge` is 0, the list of what the referee was asked grew by each node of the source's core, in
    // order, with its note in the derivation. Any other command leaves the list unchanged.
    ensures asks { Asks (F.bytes files.old) (command_of (texts words.now)) result (R.asked referee.old) (R.asked referee.new) }
{
    refused_sources_have_no_derivation();
    derivable_sources_are_safe();
    derivable_sources_are_isolated();
    derivable_sources_are_reliable();
    tables_tell_of_every_run();
    let ended = run_words(alloc, words, files, out, referee);
    finish(alloc, ended, err)
}

// Runs the command of the words.
fn run_words<F: Files, O: Sink, R: Referee>(
    alloc: Global,
    words: &[&str],
    files: &mut F,
    out: &mut O,
    referee: &mut R,
) -> Result<(), Stop>
    ensures later { (n : Text) → F.faults files.old n ≤ F.faults files.new n }
    ensures same { (n : Text) → F.bytes files.new n ≡ F.bytes files.old n }
    ensures out_later { O.faults out.old ≤ O.faults out.new }
    ensures ends { let files = files_change (F.bytes files.old) (F.faults files.old) (F.faults files.new) (F.taken files.new) in
        EndsCommand (IsVerdict files (texts words.now)) (FailedIn files (texts words.now))
        (change (O.written out.old) (O.written out.new) (O.faults out.old) (O.faults out.new)) result }
    ensures asks { AsksSo (F.bytes files.old) (command_of (texts words.now)) (R.asked referee.old) (R.asked referee.new) result }
{
    match read_words(alloc, words) {
        Ok(command) => run_command(alloc, command, files, out, referee),
        Err(WordsFault::Refused) => Err(refuse_words(alloc)),
        Err(WordsFault::Memory) => Err(Stop::Memory),
    }
}
