//! What is never sent.
ghost use Rattle.std.specs.Prelude.{◌≡◌, ◌↔◌, ℕ, Some, IsTrue, IfOk, OnOk, List as Sequence, Option as Choice};
ghost use Rattle.pc_base.specs.Lists.{Ascends, Has};
ghost use Rattle.pc_semantics.specs.Configurations as beginning;
ghost use Rattle.pc_sends.specs.Tables.{Sends};
ghost use Rattle.pc_sends.specs.Tables as spec;
ghost use Rattle.pc_sends.specs.Unsent as unsent;

use crate::found::Found;
use crate::messages::is_message;
use crate::table::Row;
use pc_base::List;
use pc_core::Core;
use pc_semantics::main_create;
use pc_tree::{EntityKind, FIRST_OWN};
use std::alloc::{AllocError, Global};

// The targets of these rows.
fn targets_of(alloc: Global, rows: &[Row]) -> Result<Found, AllocError>
    ensures { IfOk result (λ targets. (t : ℕ) → Has targets t ↔ ((e : ℕ) × Has rows.now (spec.row e t))) }
{
    let mut targets = Found::new(alloc);
    for row in rows {
        targets.add(row.target)?;
    }
    Ok(targets)
}

fn is_actor(kind: EntityKind) -> bool
    ensures { IsTrue result ↔ (kind ≡ EntityKind.Actor) }
{
    match kind {
        EntityKind::Actor => true,
        EntityKind::Class | EntityKind::Primitive | EntityKind::Trait | EntityKind::Interface =>
            false,
    }
}

// Whether the entity is one of the file's actors.
fn is_own_actor(core: &Core, entity: u32) -> bool
    ensures { IsTrue result ↔ spec.IsOwnActor core.now entity }
{
    match core.entity_at(entity) {
        Some(found) => FIRST_OWN <= entity && is_actor(found.kind),
        None => false,
    }
}

// Whether the method is a behaviour or a constructor of one of the file's actors.
fn is_of_actor(core: &Core, number: u32) -> bool
    ensures { IsTrue result ↔ spec.IsOfActor core.now number }
{
    match core.method_at(number) {
        Some(method) => is_message(method.kind) && is_own_actor(core, method.entity),
        None => false,
    }
}

// Whether the program does not begin with this method.
fn is_later(first: Option<(u32, u32)>, number: u32) -> bool
    ensures { IsTrue result ↔ spec.IsLater first number }
{
    match first {
        Some((_, create)) => create != number,
        None => true,
    }
}

// Whether the method belongs to one of the file's actors, the program does not begin with it, and it is not a target.
fn is_unsent(core: &Core, first: Option<(u32, u32)>, targets: &Found, number: u32) -> bool
    ensures { IsTrue result ↔ (spec.IsOfActor core.now number × spec.IsLater first number × (Has targets.now number → ⊥)) }
{
    is_of_actor(core, number) && is_later(first, number) && !targets.has(number)
}

/// The behaviours and constructors of the file's actors, other than the one with which the program begins, that are not
/// targets of these rows, in ascending order.
pub(crate) fn list_never(alloc: Global, core: &Core, rows: &[Row]) -> Result<List<u32>, AllocError>
    ensures ascends { IfOk result (λ numbers. Ascends numbers) }
    ensures exact { IfOk result (λ numbers. (t : ℕ) → Has numbers t ↔ unsent.IsUnsent core.now rows.now t) }
{
    core.formed();
    let targets = targets_of(alloc, rows)?;
    let first = main_create(core);
    let mut numbers = List::new(alloc);
    for number in 0..core.methods().len() as u32 {
        if is_unsent(core, first, &targets, number) {
            numbers.push(number)?;
        }
    }
    Ok(numbers)
}
