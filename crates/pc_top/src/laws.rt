//! What is proved of the verdict. Each call does nothing, and its contract is the law.
ghost use Rattle.pc_top.specs.Laws.{RefusedIsUnderivable};
ghost use Rattle.pc_top.specs.Laws.{DerivableIsSafe};
ghost use Rattle.pc_top.specs.Laws.{DerivableIsIsolated, DerivableIsReliable};
ghost use Rattle.pc_top.specs.CoresFormed.{CoresAreFormed};
ghost use Rattle.pc_top.specs.Exact.{JudgedAreExact, StatusesAreExact};
ghost use Rattle.pc_top.specs.Failures.{FailuresAreTold, NoVerdictIsAFailure};
ghost use Rattle.pc_top.specs.Laws.{UpgradedIsAccepted, WrittenIsAccepted};
ghost use Rattle.pc_top.specs.One.{VerdictIsOne};
ghost use Rattle.pc_top.specs.Played.{PlayedAsRun};
ghost use Rattle.pc_top.specs.Laws.{TablesTell};

use pc_check::{
    nothing_is_derivable_with_a_declaration_that_fails, nothing_is_derivable_with_a_field_unset,
    nothing_is_derivable_without_a_rule,
};
use pc_choose::lists_are_one;
use pc_deriv::annotations_are_one;
use pc_elab::cores_are_formed;
use pc_explain::{accepted_has_none, explanations_are_one};
use pc_file_spec::cores_are_one;
use pc_grammar::files_are_read;
use pc_guarantees::{safe_progresses, valid_is_owned, valid_reads_val};
use pc_isolation::{valid_is_isolated, valid_is_passed_whole, valid_keeps_val};
use pc_judge::{faulted_is_not_valid, one_fault_is_first};
use pc_lex::{faults_are_told, tokens_are_one};
use pc_names::names_are_one;
use pc_noted_receivers::accepted_held;
use pc_outcome_laws::answers_are_one;
use pc_play::lines_fit;
use pc_regions::valid_is_safe;
use pc_rules::one_annotation_is_valid;
use pc_sched::turns_are_one;
use pc_sched_lines::lines_are_one;
use pc_sends::held_covers;
use pc_sub::{no_fault_where_declarations_fit, one_declaration_fails_first};
use pc_swap::{arrivals_decide, kept_are_not_apart};
use pc_text_order::tokens_are_in_order;
use pc_types::accepted_never_lacks;

/// The core of a source fits together, and is small enough for its annotations to have a text.
pub fn cores_of_sources_are_formed()
    ensures { CoresAreFormed }
{
    tokens_are_in_order();
    cores_are_formed();
}

/// There is at most one verdict on words and files, if the bytes of the command's files are known and no reading of
/// them failed.
pub fn verdict_is_one()
    ensures { VerdictIsOne }
{
    tokens_are_one();
    faults_are_told();
    files_are_read();
    names_are_one();
    cores_are_one();
    cores_of_sources_are_formed();
    no_fault_where_declarations_fit();
    one_declaration_fails_first();
    one_annotation_is_valid();
    nothing_is_derivable_without_a_rule();
    nothing_is_derivable_with_a_field_unset();
    nothing_is_derivable_with_a_declaration_that_fails();
    pc_check::faults_are_one();
    annotations_are_one();
    pc_deriv::faults_are_one();
    one_fault_is_first();
    faulted_is_not_valid();
    turns_are_one();
    pc_sched::faults_are_told();
    kept_are_not_apart();
    lines_are_one();
    lists_are_one();
    answers_are_one();
    explanations_are_one();
    accepted_has_none();
}

/// Let the bytes of a source be known, and no reading of it have failed. Then the verdict of `check` has status 0 iff
/// the source has a core with a derivation; and that of a command that looks for a derivation has status 1 iff the
/// source, or the program of `make`, has a core without one, if the words spell the numbers that the command takes.
pub fn statuses_are_exact()
    ensures { StatusesAreExact }
{
    tokens_are_one();
    faults_are_told();
    files_are_read();
    names_are_one();
    cores_are_one();
    cores_of_sources_are_formed();
    nothing_is_derivable_without_a_rule();
    nothing_is_derivable_with_a_field_unset();
    nothing_is_derivable_with_a_declaration_that_fails();
}

/// Let the bytes of both files be known, and no reading of them have failed. Then the status of `judge` and of
/// `upgrade` is 0 iff the derivation is the text of a valid annotation of the source's core.
pub fn judged_statuses_are_exact()
    ensures { JudgedAreExact }
{
    verdict_is_one();
}

/// What `check` writes for a source, `judge` accepts for the same source.
pub fn written_derivations_are_accepted()
    ensures { WrittenIsAccepted }
{}

/// What `upgrade` writes for a source, `judge` accepts for the same source, and `upgrade` writes it again.
pub fn upgraded_derivations_are_accepted()
    ensures { UpgradedIsAccepted }
{}

/// A source that is refused with status 1 has a core, and the core has no derivation.
pub fn refused_sources_have_no_derivation()
    ensures { RefusedIsUnderivable }
{
    cores_of_sources_are_formed();
    nothing_is_derivable_without_a_rule();
    nothing_is_derivable_with_a_field_unset();
    nothing_is_derivable_with_a_declaration_that_fails();
}

/// No verdict has the status of a file or a stream that failed, or of running out of memory.
pub fn no_verdict_is_a_failure()
    ensures { NoVerdictIsAFailure }
{}

/// What an answer of 9, 10 or 11 means for out and err: with 9, out is unchanged and err has the line of the file; with
/// 10, out or err got a part of what was to be written; and with 11, out may have a part of its text, and err has
/// nothing.
pub fn failures_are_told()
    ensures { FailuresAreTold }
{}

/// A source whose core has a derivation is safe: over every schedule, no two actors race, what waits in messages is let
/// alone, and no step lacks anything.
pub fn derivable_sources_are_safe()
    ensures { DerivableIsSafe }
{
    cores_of_sources_are_formed();
    valid_is_safe();
}

/// A source whose core has a derivation is isolated in depth: over every schedule, no step touches what is inside a
/// waiting `iso` argument, or an object that leads there; none writes what is seen from a waiting `iso` or `val`
/// argument; and what is inside one argument is neither inside nor seen from any other. Until its message is taken, the
/// same objects are inside an argument and seen from it, with the same contents; and the step that takes the message
/// hands its arguments over, and changes no object.
pub fn derivable_sources_are_isolated()
    ensures { DerivableIsIsolated }
{
    cores_of_sources_are_formed();
    valid_is_isolated();
    valid_is_passed_whole();
}

/// A source whose core has a derivation is one on which a compiler may rely: over every schedule, what is `val` is
/// immutable for good, objects have single owners, each actor that has work can step, and the order in which messages
/// arrive in each mailbox decides where a schedule leads.
pub fn derivable_sources_are_reliable()
    ensures { DerivableIsReliable }
{
    cores_of_sources_are_formed();
    valid_is_safe();
    valid_keeps_val();
    valid_reads_val();
    valid_is_owned();
    safe_progresses();
    arrivals_decide();
}

/// What `sends` reports of a source is right about every run: over every schedule, each frame is of a method that may
/// begin or be sent, each message that is sent has its row, and no message of a method that is never sent waits
/// anywhere. And each entity and method that its lines name exists.
pub fn tables_tell_of_every_run()
    ensures { TablesTell }
{
    cores_of_sources_are_formed();
    accepted_held();
    held_covers();
}

/// If `schedule` is done with a line for a source and a seed, then `play` of that source and that seed, and `run` of
/// that source by a file with this line, have the same status and write the same text on out. The bytes of these files
/// are known, and no reading of them failed.
pub fn plays_are_runs()
    ensures { PlayedAsRun }
{
    verdict_is_one();
    cores_of_sources_are_formed();
    accepted_never_lacks();
    lines_fit();
}
