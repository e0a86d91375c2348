//! What a core and a heap determine about entities.
ghost use Rattle.std.specs.Prelude.{◌≡◌, ◌≤◌, slice_get};
ghost use Rattle.pc_base.specs.Limits.{field_limit};
ghost use Rattle.pc_semantics.specs.Configurations as around;
ghost use Rattle.pc_semantics.specs.Parts.{number_of_fields};

use pc_core::Core;
use pc_heap::{Heap, Value};
use pc_tree::{BOOL_ENTITY, STRING_ENTITY, U64_ENTITY};

/// The number of fields of an entity, by its number; 0 if there is no such entity.
pub fn fields_of(core: &Core, entity: u32) -> u32
    ensures count { result ≡ number_of_fields (slice_get core.now.entities entity) }
    ensures few { result ≤ field_limit }
{
    core.formed();
    match core.entity_at(entity) {
        Some(found) => found.fields.len() as u32,
        None => 0,
    }
}

/// A value's own entity. `None` iff the value is an address without an object.
pub fn entity_of(heap: &Heap, value: &Value) -> Option<u32>
    ensures { result ≡ around.value_entity heap.now.objects value.now }
{
    match value {
        Value::Num(_) => Some(U64_ENTITY),
        Value::Truth(_) => Some(BOOL_ENTITY),
        Value::Text(_) => Some(STRING_ENTITY),
        Value::Prim(entity) => Some(*entity),
        Value::At(address) => heap.class_of(*address),
    }
}
