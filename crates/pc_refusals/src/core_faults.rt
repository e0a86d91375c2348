//! The refusals of a core that has no derivation.
ghost use Rattle.std.specs.Prelude.{◌≡◌, slice_get};
ghost use Rattle.pc_refusals.specs.FaultLines as spec;
ghost use Rattle.pc_refusals.specs.Parts as parts;
ghost use Rattle.pc_refusals.specs.Inner.Refusals.{IsCoreStop};

use crate::refusal::refuse_at;
use crate::source::Source;
use crate::stop::Stop;
use pc_check::CheckFault;
use pc_core::{Core, Method};
use pc_sub::DeclFault;
use std::alloc::Global;

// Where an entity's name starts.
fn entity_start(core: &Core, entity: u32) -> u32
    ensures { result ≡ parts.entity_start (slice_get core.now.entities entity) }
{
    match core.entity_at(entity) {
        Some(found) => found.span.start,
        None => 0,
    }
}

// Where a method's name starts.
fn method_start(core: &Core, method: u32) -> u32
    ensures { result ≡ parts.method_start (slice_get core.now.methods method) }
{
    match core.method_at(method) {
        Some(found) => found.span.start,
        None => 0,
    }
}

// Where the name of a parameter of a method starts.
fn param_start(method: &Method, parameter: u32) -> u32
    ensures { result ≡ parts.param_start (slice_get method.now.params parameter) }
{
    match method.params.get(parameter as usize) {
        Some(found) => found.span.start,
        None => 0,
    }
}

// The same, by the method's number.
fn own_param_start(core: &Core, method: u32, parameter: u32) -> u32
    ensures { result ≡ parts.own_param_start (slice_get core.now.methods method) parameter }
{
    match core.method_at(method) {
        Some(found) => param_start(found, parameter),
        None => 0,
    }
}

// Where a node starts.
fn node_start(core: &Core, node: u32) -> u32
    ensures { result ≡ parts.node_start (slice_get core.now.nodes node) }
{
    match core.node_at(node) {
        Some(found) => found.span.start,
        None => 0,
    }
}

/// The byte at which a declaration that fails is named.
pub fn declaration_offset(core: &Core, fault: DeclFault) -> u32
    ensures { result ≡ spec.decl_offset core.now fault }
{
    match fault {
        DeclFault::NotSendable { method, parameter } => own_param_start(core, method, parameter),
        DeclFault::MissingMethod { entity, .. } => entity_start(core, entity),
        DeclFault::Mismatch { method, .. } => method_start(core, method),
    }
}

/// The words for a declaration that fails.
pub fn declaration_text(fault: DeclFault) -> &'static str
    ensures { result.now ≡ spec.decl_text fault }
{
    match fault {
        DeclFault::NotSendable { .. } => "parameter not sendable",
        DeclFault::MissingMethod { .. } => "method missing",
        DeclFault::Mismatch { .. } => "method does not fit",
    }
}

/// The refusal of the source with this name, at whose core the inference stops.
pub fn refuse_core(alloc: Global, name: &str, source: &Source, fault: &CheckFault) -> Stop
    ensures { IsCoreStop name.now source.now fault.now result }
{
    let bytes = source.bytes.as_slice();
    let core = &source.core;
    match fault {
        CheckFault::Decl(fault) => refuse_at(
            alloc,
            name,
            bytes,
            1,
            declaration_offset(core, *fault),
            declaration_text(*fault),
        ),
        CheckFault::NoRule { node, .. } => {
            refuse_at(alloc, name, bytes, 1, node_start(core, *node), "no rule")
        }
        CheckFault::Unset { method, .. } => {
            refuse_at(
                alloc,
                name,
                bytes,
                1,
                method_start(core, *method),
                "field not set",
            )
        }
        CheckFault::Memory => Stop::Memory,
    }
}
