//! The place in its source of what is refused in a core.
ghost use Rattle.std.specs.Prelude.{◌≡◌, IfOk, slice_get};
ghost use Rattle.pc_explain.specs.Explanation as explained;
ghost use Rattle.pc_lib_buffers.specs.Spans as spec;
ghost use Rattle.pc_lib_buffers.specs.Spans.{IsCoreSpan};

use pc_base::Span;
use pc_check::{CheckFault, DeclFault};
use pc_core::{Core, Method};
use std::alloc::AllocError;

const NO_SPAN: Span = Span { start: 0, end: 0 };

// The name of an entity.
fn entity_span(core: &Core, entity: u32) -> Span
    ensures { result ≡ explained.entity_span (slice_get core.now.entities entity) }
{
    match core.entity_at(entity) {
        Some(found) => found.span,
        None => NO_SPAN,
    }
}

// The name of a method.
fn method_span(core: &Core, method: u32) -> Span
    ensures { result ≡ explained.method_span (slice_get core.now.methods method) }
{
    match core.method_at(method) {
        Some(found) => found.span,
        None => NO_SPAN,
    }
}

// The name of a method's parameter.
fn param_span(method: &Method, parameter: u32) -> Span
    ensures { result ≡ explained.param_span (slice_get method.now.params parameter) }
{
    match method.params.get(parameter as usize) {
        Some(found) => found.span,
        None => NO_SPAN,
    }
}

// The same, by the method's number.
fn own_param_span(core: &Core, method: u32, parameter: u32) -> Span
    ensures { result ≡ explained.own_param_span (slice_get core.now.methods method) parameter }
{
    match core.method_at(method) {
        Some(found) => param_span(found, parameter),
        None => NO_SPAN,
    }
}

// The text that a node represents.
fn node_span(core: &Core, node: u32) -> Span
    ensures { result ≡ spec.node_span (slice_get core.now.nodes node) }
{
    match core.node_at(node) {
        Some(found) => found.span,
        None => NO_SPAN,
    }
}

// The name of a declaration that fails.
#[tactic(auto, unfolding(pc_explain::specs::Explanation::decl_span))]
fn declaration_span(core: &Core, fault: DeclFault) -> Span
    ensures { result ≡ explained.decl_span core.now fault }
{
    match fault {
        DeclFault::NotSendable { method, parameter } => own_param_span(core, method, parameter),
        DeclFault::MissingMethod { entity, .. } => entity_span(core, entity),
        DeclFault::Mismatch { method, .. } => method_span(core, method),
    }
}

/// What is refused in a core that has this fault.
pub fn core_span(core: &Core, fault: &CheckFault) -> Result<Option<Span>, AllocError>
    ensures { IfOk result (IsCoreSpan core.now fault.now) }
{
    match fault {
        CheckFault::Decl(fault) => Ok(Some(declaration_span(core, *fault))),
        CheckFault::NoRule { node, .. } => Ok(Some(node_span(core, *node))),
        CheckFault::Unset { method, .. } => Ok(Some(method_span(core, *method))),
        CheckFault::Memory => Err(AllocError),
    }
}
