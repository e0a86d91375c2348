//! A program with a valid annotation lacks nothing when it runs: over every list of actors, no actor's next step lacks
//! its value, slot, object, field or method (`accepted_never_lacks`). And every program begins with two actors. Each
//! public call does nothing, and its contract is a law of `specs/Laws.antt`, in terms of the machine alone; everything
//! else is in `proofs/`.
//!
//! How the proof goes:
//! - A value is of a type if its entity is that of the type or conforms to it (`Under`) and, unless the form is `tag`,
//!   its object is finished (`Types`). A configuration is well typed if its objects, messages and frames are (`Typed`,
//!   `Frames`).
//! - A frame can go on if its tasks can be done with what is live, what is set and what is on its stack; this is
//!   defined from the last task to the first (`Tasks`).
//! - The start is well typed (`Starts`).
//! - A valid annotation and a core that fits together give what the proof uses of them (`Needs`, `Needed`,
//!   `Declarations`): each note meets its rule (`Notes`), and what a rule states is taken apart by kind of node
//!   (`Inverse`, `InverseCalls`).
//! - So the move of each task preserves what it has to (`Moves`; `AllTasks`, and a file for each task). Such a move
//!   leads from one well-typed configuration to another and lacks nothing (`Made`), and so does each step (`Takes` for
//!   messages; `Steps`, `Sound`).
//!
//! Which file has which part:
//! - tasks: `EvalTask` with `EvalChildren`, `EvalValue` and `EvalControl`; `GetTask`, `PutTask`, `StoreTask`,
//!   `ApplyTask`, `MakeTask`, `SpawnTask`, `InvokeTask`, `ReturnTask`; `Choose` for Test, Branch, Loop and Discard;
//! - frames: `Running` (it goes on), `Finish` (what its node's children left), `Begin` (that of a method), `Callers`
//!   (the one that waits), `Popped` (the arguments), `Origins` (the object of a field);
//! - objects: `Heaps`, `Growth`, `AllFields`; values, masks and places: `Values`, `Basic`, `Tables`, `Places`.
//!
//! How the code is to be read is in `CONTRIBUTING.md` (How to read the code).
#![tactic(auto)]

mod laws;

pub use laws::{accepted_never_lacks, start_has_two_actors};
