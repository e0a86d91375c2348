//! The outcomes of the seeds so far.
ghost use Rattle.std.specs.Prelude.{◌≡◌, ◌+◌, ◌<◌, ◌++◌, ◌∷◌, [], ◌^◌, length, position, slice_get, slice_set, IfOk, IfSome, None, OnOk};
ghost use Rattle.pc_outcomes.specs.Shown.{play_with, shown};
ghost use Rattle.pc_outcomes.specs.Tables.{shows_outcome};
ghost use Rattle.pc_outcomes.specs.Under.{one_more, entry_of};

use crate::entry::{Ending, Entry, Outcome, Seeds};
use indexmap::IndexMap;
use pc_base::List;
use std::alloc::{AllocError, Global};
use std::marker::Model;

/// The outcomes of some seeds, in the order of their first seeds. They are looked up by a hash of the text and the
/// ending.
#[derive(Drop)]
pub struct Entries {
    seeds: IndexMap<Outcome, Seeds>,
}

impl Model for Entries {
    ghost use Rattle.std.specs.Prelude.{List as Sequence, map};
    ghost use Rattle.pc_outcomes.specs.declared.entry.Entry.{Entry};
    ghost use Rattle.pc_outcomes.specs.Shown.{shown};

    ghost Value = { Sequence Entry };

    ghost view = { λ e. map shown e.seeds.entries };
}

/// The outcome of a play with this text and this ending.
pub fn outcome_of(text: List<u8>, end: Ending) -> Outcome
    ensures text { result.text.items ≡ text }
    ensures ending { result.ending ≡ end }
{
    Outcome {
        text: text.into_vec(),
        ending: end,
    }
}

// The entry of an outcome and its seeds.
fn entry(outcome: Outcome, seeds: Seeds) -> Entry
    ensures { result ≡ shown (outcome, seeds) }
{
    let Outcome { text, ending } = outcome;
    Entry {
        seed: seeds.first,
        number: seeds.number,
        steps: seeds.steps,
        text: List::from_vec(text),
        ending,
    }
}

impl Entries {
    /// No outcomes. It does not allocate.
    pub fn new(alloc: Global) -> Entries
        ensures { result ≡ [] }
    {
        Entries {
            seeds: IndexMap::new(alloc),
        }
    }

    /// The place of an outcome. `None` iff no seed so far has it.
    pub fn place_of(&self, outcome: &Outcome) -> Option<usize>
        ensures { result ≡ position (λ e. shows_outcome e (play_with outcome.now 0)) self.now }
    {
        self.seeds.get_index_of(outcome)
    }

    /// One more seed has the outcome at a place.
    pub fn count_at(&mut self, at: usize)
        requires there { at < length self.old }
        requires few { IfSome (slice_get self.old at) (λ e. e.number + 1 < 2 ^ 32) }
        ensures { IfSome (slice_get self.old at) (λ e. self.new ≡ slice_set self.old at (one_more e)) }
    {
        let seeds = &mut self.seeds[at];
        seeds.number += 1;
    }

    /// The first seed with an outcome that no seed so far has.
    pub fn push(&mut self, seed: u32, steps: u32, outcome: Outcome) -> Result<(), AllocError>
        requires { position (λ e. shows_outcome e (play_with outcome 0)) self.old ≡ None }
        ensures { OnOk result (self.new ≡ self.old ++ entry_of seed (play_with outcome steps) ∷ []) }
    {
        let seeds = Seeds {
            first: seed,
            number: 1,
            steps,
        };
        self.seeds.insert(outcome, seeds)?;
        Ok(())
    }

    /// The outcomes as a list.
    pub fn into_list(self, alloc: Global) -> Result<List<Entry>, AllocError>
        ensures { IfOk result (λ list. list ≡ self) }
    {
        let Entries { seeds } = self;
        let entries = seeds
            .into_iter()
            .map(
                |pair: (Outcome, Seeds)| -> Entry
                    ensures { result ≡ shown pair }
                { entry(pair.0, pair.1) },
            )
            .collect(alloc)?;
        Ok(List::from_vec(entries))
    }
}
