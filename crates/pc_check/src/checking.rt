//! The walk through the nodes.
ghost use Rattle.std.specs.Prelude.{◌≡◌, [], Ok, Err, IfOk, IfErr};
ghost use Rattle.pc_ann.specs.declared.annotation.Ann.{Ann};
ghost use Rattle.pc_sub.specs.declared.faults.DeclFault.{DeclFault};
ghost use Rattle.pc_sub.specs.Declarations.{DeclOk};
ghost use Rattle.pc_sub.specs.FirstFault.{IsFirstDeclarationFault};
ghost use Rattle.pc_valid.specs.Valid.{Valid};
ghost use Rattle.pc_check.specs.declared.fault.CheckFault.TheVariants as fault_of;
ghost use Rattle.pc_check.specs.Faults.{RefusesCore, AnswersAnnotation};
ghost use Rattle.pc_check.specs.Sources.{Sourced};
ghost use Rattle.pc_check.specs.Walked.{Walked};

use crate::fault::CheckFault;
use crate::inference::{infer_note, leaves_unset, masks_from};
use crate::slots::{first_types, infer_slot};
use crate::sources::{Source, source_at, sources};
use pc_ann::{Ann, Note};
use pc_base::List;
use pc_core::Core;
use pc_rules::one_annotation_is_valid;
use pc_sub::declarations;
use std::alloc::{AllocError, Global};

// No notes yet, with room for as many as there are nodes.
fn no_notes(alloc: Global, core: &Core) -> Result<List<Note>, AllocError>
    ensures { IfOk result (λ notes. notes ≡ []) }
{
    Ok(List::from_vec(Vec::with_capacity(alloc, core.nodes().len())?))
}

// The annotation before the first node.
fn nothing_noted(alloc: Global, core: &Core) -> Result<Ann, AllocError>
    ensures { IfOk result (λ ann. Walked core.now ann 0) }
{
    let slots = first_types(alloc, core)?;
    let notes = no_notes(alloc, core)?;
    Ok(Ann {
        slots: List::from_vec(slots),
        notes,
    })
}

// Gives the nodes their notes, one after the other.
fn note_nodes(core: &Core, sources: &[Source], mut ann: Ann) -> Result<Ann, CheckFault>
    requires declarations { DeclOk core.now }
    requires sources { Sourced core.now sources.now }
    requires ann { Walked core.now ann 0 }
    ensures ok { IfOk result (Valid core.now) }
    ensures err { IfErr result (RefusesCore core.now) }
{
    core.formed();
    for number in 0..core.nodes().len() {
        let node = &core.nodes()[number];
        let masks = masks_from(core, &ann, source_at(sources, number));
        infer_slot(core, &mut ann, node);
        let note = match infer_note(core, &ann, node, masks) {
            Some(note) => note,
            None => {
                return Err(CheckFault::NoRule {
                    node: number as u32,
                    live: masks.0,
                    set: masks.1,
                    so_far: ann,
                });
            }
        };
        ann.notes.push(note)?;
        if leaves_unset(core, node, note) {
            return Err(CheckFault::Unset {
                method: node.method,
                so_far: ann,
            });
        }
    }
    Ok(ann)
}

// The annotation of a core whose declarations fit.
fn infer(alloc: Global, core: &Core) -> Result<Ann, CheckFault>
    requires { DeclOk core.now }
    ensures ok { IfOk result (Valid core.now) }
    ensures err { IfErr result (RefusesCore core.now) }
{
    let sources = sources(alloc, core)?;
    let ann = nothing_noted(alloc, core)?;
    note_nodes(core, &sources, ann)
}

// Checks the declarations, and then the nodes.
fn looked_through(alloc: Global, core: &Core) -> Result<Ann, CheckFault>
    ensures ok { IfOk result (Valid core.now) }
    ensures err { IfErr result (RefusesCore core.now) }
    ensures declarations { (fault : DeclFault) → IsFirstDeclarationFault core.now fault → result ≡ Err (fault_of.Decl fault) }
{
    core.formed();
    match declarations(core) {
        Ok(()) => infer(alloc, core),
        Err(fault) => Err(CheckFault::Decl(fault)),
    }
}

/// The core's annotation: the declarations are checked first, and then the nodes, one after the other.
///
/// `Decl` is returned iff the declarations fail, with the first one that does. `NoRule` names a node to which no rule
/// applies, from the masks that reach it, and `Unset` the first constructor that leaves a field unset; `so_far` has a
/// type for each slot, the written one if there is one, and the notes of the nodes before that node, or up to and
/// including the body of that constructor, and these satisfy their rules.
pub fn check(alloc: Global, core: &Core) -> Result<Ann, CheckFault>
    // The annotation is valid.
    ensures ok { IfOk result (Valid core.now) }
    // The error carries the evidence for its fault.
    ensures err { IfErr result (RefusesCore core.now) }
    // If an annotation is valid, it is returned, unless memory ran out.
    ensures exact { (ann : Ann) → Valid core.now ann → AnswersAnnotation result (Ok ann) }
    // If the declarations fail, their fault is returned, and memory does not run out before.
    ensures declarations { (fault : DeclFault) → IsFirstDeclarationFault core.now fault → result ≡ Err (fault_of.Decl fault) }
{
    core.formed();
    one_annotation_is_valid();
    looked_through(alloc, core)
}
