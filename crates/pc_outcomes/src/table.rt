//! The table of the outcomes of some seeds.
ghost use Rattle.std.specs.Prelude.{◌≡◌, ◌+◌, ◌<◌, ◌≤◌, ◌^◌, ℕ, position, slice_get, IfSome, None};
ghost use Rattle.pc_core.specs.CoreData.{CoreData};
ghost use Rattle.pc_run.specs.Ends.{NeverLacks};
ghost use Rattle.pc_outcomes.specs.Plays.{IsPlayOfSeed};
ghost use Rattle.pc_outcomes.specs.Shown.{play_with};
ghost use Rattle.pc_outcomes.specs.Tables as table;
ghost use Rattle.pc_outcomes.specs.Tables.{AnswersTable};
ghost use Rattle.pc_outcomes.specs.Under.{Under, AddsTo};

use crate::entries::{Entries, outcome_of};
use crate::entry::{Entry, Outcome, Play};
use crate::fault::OutcomesFault;
use crate::playing::play_of;
use pc_base::List;
use pc_core::Core;
use std::alloc::Global;

/// How many steps all plays may have together.
const STEPS_LIMIT: u64 = 100_000_000;

/// How many bytes the texts of all entries may have together.
const TEXTS_LIMIT: u64 = 67_108_864;

// Totals of the plays and the entries so far.
#[derive(Clone, Copy)]
pub struct Totals {
    // The steps of all plays.
    pub steps: u64,
    // The bytes of the texts of all entries.
    pub texts: u64,
}

// Adds a play with a new outcome to the entries. The totals have its steps, but not its text yet.
fn add_new(
    entries: &mut Entries,
    totals: Totals,
    seed: u32,
    steps: u32,
    outcome: Outcome,
) -> Result<Totals, OutcomesFault>
    requires texts { totals.texts ≤ table.texts_limit }
    requires new { position (λ e. table.shows_outcome e (play_with outcome 0)) entries.old ≡ None }
    ensures { (core : CoreData) (before : ℕ) → Under core seed entries.old (record { steps = before; texts = totals.texts }) → IsPlayOfSeed core seed (play_with outcome steps) → totals.steps ≡ before + steps → totals.steps ≤ table.steps_limit → AddsTo core seed entries.new result }
{
    let texts = totals.texts + outcome.text.len() as u64;
    if texts > TEXTS_LIMIT {
        return Err(OutcomesFault::Texts(seed));
    }
    entries.push(seed, steps, outcome)?;
    Ok(Totals {
        steps: totals.steps,
        texts,
    })
}

// Adds the play of a seed to the entries of the seeds below it.
fn add(
    entries: &mut Entries,
    totals: Totals,
    seed: u32,
    play: Play,
) -> Result<Totals, OutcomesFault>
    requires steps { totals.steps ≤ table.steps_limit }
    requires texts { totals.texts ≤ table.texts_limit }
    requires few { (at : ℕ) → IfSome (slice_get entries.old at) (λ e. e.number + 1 < 2 ^ 32) }
    ensures { (core : CoreData) → Under core seed entries.old totals → IsPlayOfSeed core seed play → AddsTo core seed entries.new result }
{
    let steps = totals.steps + u64::from(play.steps);
    if steps > STEPS_LIMIT {
        return Err(OutcomesFault::Steps(seed));
    }
    let totals = Totals {
        steps,
        texts: totals.texts,
    };
    let Play {
        text,
        ending,
        steps,
    } = play;
    let outcome = outcome_of(text, ending);
    match entries.place_of(&outcome) {
        Some(at) => {
            entries.count_at(at);
            Ok(totals)
        }
        None => add_new(entries, totals, seed, steps, outcome),
    }
}

/// The outcomes of the seeds below a count, in the order of their first seeds. No step of the core lacks anything, over
/// any list of actors.
///
/// # Errors
/// - `Steps(seed)` if the plays of the seeds up to this one have more than 100,000,000 steps, and those below it do
///   not.
/// - `Texts(seed)` if the texts of the different outcomes of the seeds up to this one have more than 67,108,864 bytes,
///   and those below it do not.
/// - `Memory` if memory ran out.
pub fn outcomes(alloc: Global, core: &Core, count: u32) -> Result<List<Entry>, OutcomesFault>
    requires few { count < 2 ^ 31 }
    requires never_lacks { NeverLacks core.now }
    ensures { AnswersTable core.now count result }
{
    let mut entries = Entries::new(alloc);
    let mut totals = Totals { steps: 0, texts: 0 };
    'seeds: for seed in 0..count {
        let play = play_of(alloc, core, seed)?;
        match add(&mut entries, totals, seed, play) {
            Ok(next) => totals = next,
            Err(fault) => return Err(fault),
        }
    }
    Ok(entries.into_list(alloc)?)
}
