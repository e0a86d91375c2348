//! The commands, each in a file of its own, and which of them the words ask for.
ghost use Rattle.std.specs.Prelude.{◌≡◌, ◌≤◌, Some};
ghost use Rattle.pc_base.specs.Lists.{Text};
ghost use Rattle.pc_args.specs.Commands.{asked_by};
ghost use Rattle.pc_io.specs.Sink.{change};
ghost use Rattle.pc_refusals.specs.Inner.Answering.{EndsCommand};
ghost use Rattle.pc_refusals.specs.Verdict.{files_change};
ghost use Rattle.pc_top.specs.Commands.{FailedOf, IsVerdictOf};
ghost use Rattle.pc_top.specs.Inner.Asking.{AsksSo};

mod check;
mod events;
mod explain;
mod judge;
mod make;
mod outcomes;
mod places;
mod play;
mod run;
mod schedule;
mod sends;
mod show;
mod swap;
mod trace;
mod upgrade;

use check::check_source;
use events::tell_events;
use explain::explain_source;
use judge::judge_source;
use make::make_program;
use outcomes::tell_outcomes;
use pc_args::Command;
use pc_io::{Files, Sink};
use pc_referee::Referee;
use pc_refusals::{Stop, put_answer};
use places::tell_places;
use play::play_source;
use run::run_source;
use schedule::choose_schedule;
use sends::tell_sends;
use show::show_source;
use std::alloc::Global;
use swap::swap_turns;
use trace::trace_run;
use upgrade::upgrade_derivation;

/// Does what a command asks for. If the command returns a text, the text is written here, in one call of `put` on out;
/// `run`, `make` and `play` write as they go.
pub fn run_command<F: Files, O: Sink, R: Referee>(
    alloc: Global,
    command: Command,
    files: &mut F,
    out: &mut O,
    referee: &mut R,
) -> Result<(), Stop>
    ensures later { (n : Text) → F.faults files.old n ≤ F.faults files.new n }
    ensures same { (n : Text) → F.bytes files.new n ≡ F.bytes files.old n }
    ensures out_later { O.faults out.old ≤ O.faults out.new }
    ensures ends { let files = files_change (F.bytes files.old) (F.faults files.old) (F.faults files.new) (F.taken files.new) in
        EndsCommand (IsVerdictOf files (Some (asked_by command.entry))) (FailedOf files (Some (asked_by command.entry)))
        (change (O.written out.old) (O.written out.new) (O.faults out.old) (O.faults out.new)) result }
    ensures asks { AsksSo (F.bytes files.old) (Some (asked_by command.entry)) (R.asked referee.old) (R.asked referee.new) result }
{
    match command {
        Command::Check { source } => put_answer(out, check_source(alloc, files, source)),
        Command::Judge { source, derivation } => {
            put_answer(out, judge_source(alloc, files, source, derivation, referee))
        }
        Command::Run { source, schedule } => run_source(alloc, files, out, source, schedule),
        Command::Show { source } => put_answer(out, show_source(alloc, files, source)),
        Command::Make { seed, size } => make_program(alloc, out, seed, size),
        Command::Swap {
            source,
            schedule,
            place,
        } => put_answer(out, swap_turns(alloc, files, source, schedule, place)),
        Command::Trace { source, schedule } => {
            put_answer(out, trace_run(alloc, files, source, schedule))
        }
        Command::Events { source, schedule } => {
            put_answer(out, tell_events(alloc, files, source, schedule))
        }
        Command::Places { source } => put_answer(out, tell_places(alloc, files, source)),
        Command::Explain { source } => put_answer(out, explain_source(alloc, files, source)),
        Command::Sends { source } => put_answer(out, tell_sends(alloc, files, source)),
        Command::Upgrade { source, derivation } => {
            put_answer(out, upgrade_derivation(alloc, files, source, derivation))
        }
        Command::Schedule { source, seed } => {
            put_answer(out, choose_schedule(alloc, files, source, seed))
        }
        Command::Play { source, seed } => play_source(alloc, files, out, source, seed),
        Command::Outcomes { source, count } => {
            put_answer(out, tell_outcomes(alloc, files, source, count))
        }
    }
}
