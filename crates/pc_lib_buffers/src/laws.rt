//! What is proved of the bytes at which sources are refused. Each call does nothing, and its contract is the law.
ghost use Rattle.pc_lib_buffers.specs.Laws.{LinesNameSpans, SpansAreOne};

use pc_check::{
    faults_are_one, nothing_is_derivable_with_a_declaration_that_fails,
    nothing_is_derivable_with_a_field_unset, nothing_is_derivable_without_a_rule,
};
use pc_elab::cores_are_formed;
use pc_file_spec::cores_are_one;
use pc_grammar::files_are_read;
use pc_lex::{faults_are_told, tokens_are_one};
use pc_names::names_are_one;
use pc_sub::{no_fault_where_declarations_fit, one_declaration_fails_first};
use pc_text_order::tokens_are_in_order;

/// A source is refused at exactly one span, or at none.
pub fn spans_are_one()
    ensures { SpansAreOne }
{
    tokens_are_one();
    faults_are_told();
    tokens_are_in_order();
    files_are_read();
    names_are_one();
    cores_are_one();
    cores_are_formed();
    no_fault_where_declarations_fit();
    one_declaration_fails_first();
    nothing_is_derivable_without_a_rule();
    nothing_is_derivable_with_a_field_unset();
    nothing_is_derivable_with_a_declaration_that_fails();
    faults_are_one();
}

/// The line by which a source is refused names the first byte of the span at which it is refused.
pub fn lines_name_spans()
    ensures { LinesNameSpans }
{}
