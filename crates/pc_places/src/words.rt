//! The words of the text.
ghost use Rattle.std.specs.Prelude.{◌≡◌};
ghost use Rattle.pc_places.specs.Words as spec;

use pc_core::{MethodKind, SlotKind};
use pc_tree::EntityKind;

/// The word of a kind of entity.
pub fn entity_word(kind: EntityKind) -> &'static str
    ensures { result.now ≡ spec.entity_kind_word kind }
{
    match kind {
        EntityKind::Class => "class",
        EntityKind::Actor => "actor",
        EntityKind::Primitive => "primitive",
        EntityKind::Trait => "trait",
        EntityKind::Interface => "interface",
    }
}

/// The word of a field, depending on whether it is a `let`.
pub fn field_word(fixed: bool) -> &'static str
    ensures { result.now ≡ spec.field_word fixed }
{
    if fixed { "let" } else { "var" }
}

/// The word of a kind of method.
pub fn method_word(kind: MethodKind) -> &'static str
    ensures { result.now ≡ spec.method_kind_word kind }
{
    match kind {
        MethodKind::Fun => "fun",
        MethodKind::Be => "be",
        MethodKind::New => "new",
        MethodKind::Spawn => "spawn",
    }
}

/// The word of a kind of slot.
pub fn slot_word(kind: SlotKind) -> &'static str
    ensures { result.now ≡ spec.slot_word kind }
{
    match kind {
        SlotKind::This => "this",
        SlotKind::Param => "param",
        SlotKind::Let => "let",
        SlotKind::Var => "var",
    }
}
