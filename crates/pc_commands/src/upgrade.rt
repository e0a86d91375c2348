//! `upgrade SRC DERIV`: the text in version 2 of an annotation that was read.
ghost use Rattle.std.specs.Prelude.{◌≤◌, length};
ghost use Rattle.pc_deriv.specs.Text.{deriv_text};
ghost use Rattle.pc_deriv.specs.Parts.{derivation_node_limit, derivation_slot_limit};
ghost use Rattle.pc_deriv.specs.declared.version.Version.TheVariants as version;
ghost use Rattle.pc_refusals.specs.Derivation.{Judging};
ghost use Rattle.pc_refusals.specs.Inner.Answering.{AnswersText};
ghost use Rattle.pc_refusals.specs.Verdict.{EndsAs};

use pc_ann::Ann;
use pc_base::List;
use pc_deriv::write2;
use pc_refusals::{Source, Stop, judge_annotation};
use std::alloc::Global;

/// Judges the annotation that was read from the derivation with this name, of at most 640,000 slots and 200,000 nodes,
/// and returns its text in version 2. It stops with the line of the first fault, or because memory ran out. The source is
/// let go before the text is made.
pub fn upgrade_annotation(
    alloc: Global,
    source_name: &str,
    name: &str,
    source: Source,
    ann: &Ann,
) -> Result<List<u8>, Stop>
    requires { (length ann.now.slots ≤ derivation_slot_limit) × (length ann.now.notes ≤ derivation_node_limit) }
    ensures { AnswersText (EndsAs (λ _. deriv_text version.Two ann.now) (Judging source_name.now name.now source ann.now)) (λ n. ⊥) result }
{
    judge_annotation(alloc, source_name, name, &source, ann)?;
    drop(source);
    let text = write2(alloc, ann)?;
    Ok(text)
}
