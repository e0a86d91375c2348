//! Slots, by their indices in a method.
ghost use Rattle.std.specs.Prelude.{◌≡◌};
ghost use Rattle.pc_rules.specs.Parts as parts;
ghost use Rattle.pc_rules.specs.Values.{is_var as is_var_is};
ghost use Rattle.pc_explain_conditions.specs.Conditions.{slot_type as slot_type_is};

use pc_caps::{Cap, sendable};
use pc_core::{Core, Node, Slot, SlotKind};

/// A slot of a method by its index, with its type.
pub(crate) fn slot_of(
    core: &Core,
    slots: &[(u32, Cap)],
    method: u32,
    slot: u32,
) -> Option<(Slot, (u32, Cap))>
    ensures { result ≡ parts.slot_of core.now slots.now method slot }
{
    let method = core.method_at(method)?;
    let declared = core.slot_at(method, slot)?;
    let ty = slots.get(method.first_slot as usize + slot as usize)?;
    Some((*declared, *ty))
}

/// The type of the slot.
pub(crate) fn slot_type(
    core: &Core,
    slots: &[(u32, Cap)],
    method: u32,
    slot: u32,
) -> Option<(u32, Cap)>
    ensures { result ≡ slot_type_is core.now slots.now method slot }
{
    let found = slot_of(core, slots, method, slot)?;
    Some(found.1)
}

/// Whether a slot is reachable from a node.
pub(crate) fn reachable(node: &Node, slot: (Slot, (u32, Cap))) -> bool
    ensures { result ≡ parts.reachable node.now slot }
{
    slot.0.depth == node.depth || sendable(slot.1.1)
}

/// Whether it is a `var`.
pub(crate) fn is_var(kind: SlotKind) -> bool
    ensures { result ≡ is_var_is kind }
{
    matches!(kind, SlotKind::Var)
}
