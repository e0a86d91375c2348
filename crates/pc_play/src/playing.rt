//! A play: the steps are chosen and taken, and then the text is written.
ghost use Rattle.std.specs.Prelude.{◌≡◌, ◌≤◌, IfOk};
ghost use Rattle.pc_semantics.specs.Configurations.{start as begin};
ghost use Rattle.pc_io.specs.Sink.{change};
ghost use Rattle.pc_choose.specs.Choice.{at_first};
ghost use Rattle.pc_choose.specs.Choosers.{IsAt};
ghost use Rattle.pc_run.specs.Ends.{NeverLacks};
ghost use Rattle.pc_play.specs.Plays.{IsThrough, PlaysAsRun};

use pc_choose::{Chooser, MOST_STEPS};
use pc_core::Core;
use pc_io::Sink;
use pc_machine::{Machine, Outcome, start};
use pc_run::{Counts, Progress, Report, RunFault, put_run};
use std::alloc::{AllocError, Global};

/// A machine that has taken the steps of a seed's list.
#[derive(Drop)]
pub struct Through<'p> {
    /// The machine after them.
    pub machine: Machine<'p>,
    /// How the run of the list ended.
    pub progress: Progress,
    /// How many steps the list has.
    pub steps: u32,
}

// Takes all steps that are chosen, from the start on, and returns the progress of the run and how many steps there
// were.
fn take_steps(
    machine: &mut Machine<'_>,
    chooser: &mut Chooser,
) -> Result<(Progress, u32), AllocError>
    requires started { machine.old.configuration ≡ begin machine.old.core }
    requires never_lacks { NeverLacks machine.old.core }
    requires first { chooser.old.point ≡ at_first }
    requires at { IsAt chooser.old machine.old.configuration }
    ensures through { IfOk result (λ taken. IsThrough machine.old.core chooser.old.seed machine.new.configuration taken.0 taken.1) }
    ensures core { machine.new.core ≡ machine.old.core }
{
    let mut ahead = None;
    'steps: for step in 0..MOST_STEPS {
        let counts = Counts {
            moved: u64::from(step),
            skipped: 0,
        };
        let taken = match chooser.step_on(machine, ahead)? {
            Some(taken) => taken,
            None => return Ok((Progress::Going(counts), step)),
        };
        ahead = taken.ahead;
        match taken.step.outcome {
            Outcome::Moved => {}
            Outcome::Skipped => return Ok((counts.with_step(taken.step.outcome), step + 1)),
            Outcome::TooLong => return Ok((counts.with_step(taken.step.outcome), step + 1)),
            Outcome::Lacks(_) => return Ok((counts.with_step(taken.step.outcome), step + 1)),
        }
    }
    let counts = Counts {
        moved: u64::from(MOST_STEPS),
        skipped: 0,
    };
    Ok((Progress::Going(counts), MOST_STEPS))
}

/// Starts a machine and lets it take the steps of a seed's list. No step of the core lacks anything, over any list of
/// actors.
pub fn play_through<'p>(alloc: Global, core: &'p Core, seed: u64) -> Result<Through<'p>, AllocError>
    requires never_lacks { NeverLacks core.now }
    ensures through { IfOk result (λ play. IsThrough core.now seed play.machine.configuration play.progress play.steps) }
    ensures core { IfOk result (λ play. play.machine.core ≡ core.now) }
{
    let mut machine = start(alloc, core)?;
    let mut chooser = Chooser::new(alloc, &machine, seed)?;
    let (progress, steps) = take_steps(&mut machine, &mut chooser)?;
    Ok(Through {
        machine,
        progress,
        steps,
    })
}

/// Starts a machine, lets it take the steps of a seed's list, and then writes what was printed and the line of the
/// run's numbers, as `run` does for that list. No list is kept. No step of the core lacks anything, over any list of
/// actors.
///
/// # Errors
/// - `TooLong(n)` if the n-th step of the list, counted from 1, would make a text that is too long. The texts that were
///   printed before it are written, without the numbers.
/// - `Sink` only if the sink's count of failures rose in this call, or is at its last value. A prefix of the text was
///   written, and nothing after the piece that failed.
/// - `Memory` if memory ran out. A prefix of the text was written.
pub fn play<O: Sink>(alloc: Global, core: &Core, seed: u64, out: &mut O) -> Result<Report, RunFault>
    requires never_lacks { NeverLacks core.now }
    ensures played { PlaysAsRun core.now seed (change (O.written out.old) (O.written out.new) (O.faults out.old) (O.faults out.new)) result }
    ensures later { O.faults out.old ≤ O.faults out.new }
{
    let through = play_through(alloc, core, seed)?;
    put_run(alloc, &through.machine, through.progress, out)
}
