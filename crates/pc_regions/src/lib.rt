//! A formed core with a valid annotation is safe: over every list of actors, no two actors race, what waits in messages
//! is let alone, and no step lacks anything (`valid_is_safe`). The public call does nothing, and its contract is a law of
//! `specs/Laws.antt`, in terms of the machine alone; everything else is in `proofs/`, and `docs/safety.md` explains it
//! with pictures and examples.
//!
//! How the proof goes:
//! - Each object is in a region, and a region is in one of these states: open for an actor, held at one place, a child
//!   of another, loose, or frozen (`World`). A configuration has regions if some world makes its values fit their
//!   places (`Fitting`).
//! - Chains of holders determine which actor a region belongs to, and what is frozen; they end in only one way
//!   (`OneHolder`). What an actor is about to touch belongs to it, or is frozen and only read (`Accesses`), so there is
//!   no race (`NoRace`).
//! - The start has regions (`StartFits`).
//! - A step changes the states of a few regions: a value settles at another place, or is taken from one, or a context
//!   comes or goes. Each such change preserves what fits elsewhere, and this is proved once for each.
//! - So each task's move preserves what it has to (`MoveFits`, `AllKeep`), the configuration after it has regions
//!   (`MoveMade`), and so does the one after every step (`TakesMessage` for messages; `Schedules`, `Safe`).
//!
//! Which file has which part:
//! - tasks: `EvalKeeps` with `ChildForms`, `ValueKeeps` and `ControlKeeps`; `GetKeeps`, `PutKeeps`, `StoreKeeps`,
//!   `ApplyKeeps`, `MakeKeeps`, `SpawnKeeps`, `InvokeKeeps`, `ReturnKeeps`; `ChoicesKeep` for Test, Branch, Loop and
//!   Discard;
//! - frames: `StackForms` (the forms on a stack, task by task), `FirstFrame` and `CallBegins` (a method begins),
//!   `Waiting` and `CallerKept` (what waits below), `Rising`, `Climbed` and `Climbing` (a value goes up to where it
//!   counts);
//! - changes of a world: `Changes`, `Shifts`, `Calm`, `SameRegions`, `StandsOtherwise`, `Merge`, `Closing`; the laws
//!   `Settled` (proved in `Settling`), `Taken` (`Taking`) and `ContextLaws` (`ContextComes`, `ContextGoes`);
//!   `OthersKept` for the other actors;
//! - slots and fields: `SlotSeen`, `SlotTaken`, `SlotDepth`, `SlotStored`; `FieldSeen`, `FieldDrawn`, `FieldLands`,
//!   `FieldPut`, `FieldWritten`, `GivenUp`, `OriginApart`; what is live is in scope: `LiveScope`, `LiveRules`,
//!   `LiveStarts`, `LiveTrees`;
//! - calls: `Arguments`, `ArgumentsSettle`, `CallForms`, `FunctionCall`, `MessageSent`;
//! - what is new: `NewAddress`, `NewObject`, `NewActor`, `WorldGrows`, `GrownFits`.
//!
//! How the code is to be read is in `CONTRIBUTING.md` (How to read the code).
#![tactic(auto)]

mod laws;

pub use laws::valid_is_safe;
