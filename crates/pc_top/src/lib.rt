//! The top call: everything that the program does, from its words, files and sinks to its exit status. What a command
//! does with a core is below, in `pc_commands`, and for `explain` in `pc_explain_command`.
//!
//! Proved: the clauses of `rcap`, and the laws beside it.
//! - There is at most one verdict on files that are known and did not fail (`verdict_is_one`), and none has the
//!   status of a failure (`no_verdict_is_a_failure`), with which out and err got a part of what was to be written
//!   (`failures_are_told`).
//! - The statuses for a known source are exact (`statuses_are_exact`), and so are those for a derivation
//!   (`judged_statuses_are_exact`). A source that is refused with 1 has no derivation
//!   (`refused_sources_have_no_derivation`).
//! - What `check` or `upgrade` writes, `judge` accepts (`written_derivations_are_accepted`,
//!   `upgraded_derivations_are_accepted`).
//! - The core of a source is formed (`cores_of_sources_are_formed`). If it has a derivation, it is safe
//!   (`derivable_sources_are_safe`), its waiting messages are isolated in depth (`derivable_sources_are_isolated`), and
//!   a compiler may rely on what is `val`, on single owners, on progress and on arrivals
//!   (`derivable_sources_are_reliable`).
//! - What `sends` reports is right about every run (`tables_tell_of_every_run`), and `play` has the status and the
//!   output of `run` for the line that `schedule` writes (`plays_are_runs`).
//!
//! How the code is to be read is in `CONTRIBUTING.md` (How to read the code).
#![tactic(auto)]

mod accepting;
mod commands;
mod laws;
mod numbered;
mod scheduled;
mod source;
mod top;

pub use laws::{
    cores_of_sources_are_formed, derivable_sources_are_isolated, derivable_sources_are_reliable,
    derivable_sources_are_safe, failures_are_told, judged_statuses_are_exact,
    no_verdict_is_a_failure, plays_are_runs, refused_sources_have_no_derivation,
    statuses_are_exact, tables_tell_of_every_run, upgraded_derivations_are_accepted,
    verdict_is_one, written_derivations_are_accepted,
};
pub use top::rcap;
