//! The names of entities and methods.
ghost use Rattle.std.specs.Prelude.{◌≡◌, ◌++◌, Some, slice_get, OnOk};
ghost use Rattle.pc_run_events.specs.Lines as spec;
ghost use Rattle.pc_run_events.specs.Parts as parts;

use pc_core::{Core, Method};
use std::alloc::AllocError;

/// Appends the name of an entity, by its number; nothing if there is no such entity.
pub fn push_entity(text: &mut Vec<u8>, core: &Core, entity: u32) -> Result<(), AllocError>
    ensures { OnOk result (text.new.items ≡ text.old.items ++ spec.name_of_entity (slice_get core.now.entities entity)) }
{
    match core.entity_at(entity) {
        Some(found) => text.extend_from_slice(found.name.as_slice()),
        None => Ok(()),
    }
}

// Appends the name with this number.
fn push_name(text: &mut Vec<u8>, core: &Core, name: u32) -> Result<(), AllocError>
    ensures { OnOk result (text.new.items ≡ text.old.items ++ parts.name_or_nothing (slice_get core.now.names name)) }
{
    match core.name_at(name) {
        Some(found) => text.extend_from_slice(found.as_slice()),
        None => Ok(()),
    }
}

// Appends a method, by its entity's name and its own.
fn push_found(text: &mut Vec<u8>, core: &Core, method: &Method) -> Result<(), AllocError>
    ensures { OnOk result (text.new.items ≡ text.old.items ++ spec.method_text core.now (Some method.now)) }
{
    push_entity(text, core, method.entity)?;
    text.push(b'.')?;
    push_name(text, core, method.name)
}

/// Appends a method as `E.m`, by its number; nothing if there is no such method.
pub fn push_method(text: &mut Vec<u8>, core: &Core, method: u32) -> Result<(), AllocError>
    ensures { OnOk result (text.new.items ≡ text.old.items ++ spec.method_text core.now (slice_get core.now.methods method)) }
{
    match core.method_at(method) {
        Some(found) => push_found(text, core, found),
        None => Ok(()),
    }
}
