//! The play of a seed.
ghost use Rattle.std.specs.Prelude.{◌≡◌, ◌++◌, [], ℕ, IfOk, OnOk, List as Sequence};
ghost use Rattle.pc_core.specs.CoreData.{CoreData};
ghost use Rattle.pc_semantics.specs.Configurations.{Configuration};
ghost use Rattle.pc_semantics.specs.Step as run;
ghost use Rattle.pc_base.specs.Lists.{line_end};
ghost use Rattle.pc_semantics.specs.Text.{lines, end_of};
ghost use Rattle.pc_run.specs.Ends.{NeverLacks};
ghost use Rattle.pc_run.specs.Underway.{ReachedSoFar};
ghost use Rattle.pc_outcomes.specs.Plays.{IsPlayOfSeed, ending_after};

use crate::entry::{Ending, Play};
use pc_base::List;
use pc_choose::count_able;
use pc_core::Core;
use pc_play::play_through;
use pc_run::Progress;
use std::alloc::{AllocError, Global};

// Appends a text with its line end.
fn push_line(all: &mut Vec<u8>, text: &[u8]) -> Result<(), AllocError>
    ensures { OnOk result (all.new.items ≡ all.old.items ++ (text.now ++ line_end)) }
{
    all.extend_from_slice(text)?;
    all.push(b'\n')?;
    Ok(())
}

// All texts joined, each with its line end.
fn joined(alloc: Global, texts: &[List<u8>]) -> Result<List<u8>, AllocError>
    ensures { IfOk result (λ all. all ≡ lines texts.now) }
{
    let mut all = Vec::new(alloc);
    'texts: for text in texts {
        push_line(&mut all, text.as_slice())?;
    }
    Ok(List::from_vec(all))
}

// How a play ended, given how many actors are able after it.
fn ending_of(progress: Progress, able: u32) -> Ending
    ensures { (core : CoreData) (list : Sequence ℕ) (c : Configuration) → ReachedSoFar core list c [] progress → result ≡ ending_after able (end_of (run.outcomes core list)) }
{
    match progress {
        Progress::Going(_) => { if able == 0 { Ending::Done } else { Ending::Cut } }
        Progress::TooLong(_) => Ending::TooLong,
    }
}

/// The play of a seed. No step of the core lacks anything, over any list of actors.
pub fn play_of(alloc: Global, core: &Core, seed: u32) -> Result<Play, AllocError>
    requires never_lacks { NeverLacks core.now }
    ensures { IfOk result (IsPlayOfSeed core.now seed) }
{
    let through = play_through(alloc, core, u64::from(seed))?;
    let able = count_able(alloc, &through.machine)?;
    let text = joined(alloc, through.machine.printed().as_slice())?;
    Ok(Play {
        text,
        ending: ending_of(through.progress, able),
        steps: through.steps,
    })
}
