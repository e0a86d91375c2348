//! What an entity's methods send.
ghost use Rattle.std.specs.Prelude.{◌≡◌, ◌↔◌, ◌≤◌, ℕ, [], length, IsTrue, IfOk, OnOk};
ghost use Rattle.pc_base.specs.Lists.{Differ, Has};
ghost use Rattle.pc_sends.specs.Found.{ListsMayBe, CallsAreFound};
ghost use Rattle.pc_sends.specs.Tables.{is_message};
ghost use Rattle.pc_sends.specs.Growth.{Grown, OfSome, TurnsBelow};
ghost use Rattle.pc_sends.specs.Reached as spec;

use crate::found::Found;
use crate::sorting::ascending;
use crate::walk::{Noted, Walk};
use pc_base::List;
use pc_core::{Core, MethodKind};
use std::alloc::{AllocError, Global};

/// Whether methods of this kind are sent.
pub(crate) fn is_message(kind: MethodKind) -> bool
    ensures { result ≡ is_message kind }
{
    match kind {
        MethodKind::Be | MethodKind::Spawn => true,
        MethodKind::Fun | MethodKind::New => false,
    }
}

// Whether the method with this number is sent.
fn is_message_at(core: &Core, number: u32) -> bool
    ensures { IsTrue result ↔ spec.IsMessage core.now number }
{
    match core.method_at(number) {
        Some(method) => is_message(method.kind),
        None => false,
    }
}

// ---- what is used

// Finds what a method uses, if the method is in Reach.
fn see_reached(
    noted: &Noted,
    reached: &Found,
    number: u32,
    walk: &mut Walk,
) -> Result<(), AllocError>
    requires lists { ListsMayBe noted.now.core.now noted.now.lists.now }
    requires reached { spec.IsReach noted.now.core.now noted.now.entities.now reached.now }
    requires known { CallsAreFound noted.now.core.now walk.old.calls walk.old.found }
    ensures grown { OnOk result (Grown (spec.ReachedUses noted.now.core.now noted.now.entities.now number) walk.old.found walk.new.found) }
    ensures known { OnOk result (CallsAreFound noted.now.core.now walk.new.calls walk.new.found) }
{
    if reached.has(number) {
        walk.see_method(noted, number)
    } else {
        Ok(())
    }
}

// What those of these methods use that are in Reach.
fn used_from(
    alloc: Global,
    noted: &Noted,
    reached: &Found,
    first: u32,
    end: u32,
) -> Result<Found, AllocError>
    requires lists { ListsMayBe noted.now.core.now noted.now.lists.now }
    requires reached { spec.IsReach noted.now.core.now noted.now.entities.now reached.now }
    requires ordered { first ≤ end }
    ensures { IfOk result (λ used. Grown (TurnsBelow (spec.ReachedUses noted.now.core.now noted.now.entities.now) first end) [] used) }
{
    let mut walk = Walk::new(alloc);
    for number in first..end {
        see_reached(noted, reached, number, &mut walk)?;
    }
    Ok(walk.found)
}

// What the methods of an entity use that are in Reach.
fn used_by(alloc: Global, noted: &Noted, reached: &Found, entity: u32) -> Result<Found, AllocError>
    requires lists { ListsMayBe noted.now.core.now noted.now.lists.now }
    requires reached { spec.IsReach noted.now.core.now noted.now.entities.now reached.now }
    ensures { IfOk result (λ used. spec.IsUsed noted.now.core.now noted.now.entities.now entity used) }
{
    noted.core.formed();
    match noted.core.entity_at(entity) {
        Some(found) => {
            let first = found.first_method;
            used_from(alloc, noted, reached, first, first + found.methods)
        }
        None => Ok(Found::new(alloc)),
    }
}

// ---- what is sent

// Finds the method, if it is one that is sent.
fn find_message(core: &Core, number: u32, messages: &mut Found) -> Result<(), AllocError>
    ensures { OnOk result (Grown (λ t. (number ≡ t) × spec.IsMessage core.now t) messages.old messages.new) }
{
    if is_message_at(core, number) {
        messages.add(number)
    } else {
        Ok(())
    }
}

// Those of these methods that are sent.
fn messages_of(alloc: Global, core: &Core, numbers: &[u32]) -> Result<Found, AllocError>
    ensures { IfOk result (λ messages. Grown (OfSome (λ n t. (n ≡ t) × spec.IsMessage core.now t) numbers.now) [] messages) }
{
    let mut messages = Found::new(alloc);
    for number in numbers {
        find_message(core, *number, &mut messages)?;
    }
    Ok(messages)
}

/// What the methods of an entity send, in ascending order.
pub(crate) fn sent_by(
    alloc: Global,
    noted: &Noted,
    reached: &Found,
    entity: u32,
) -> Result<List<u32>, AllocError>
    requires lists { ListsMayBe noted.now.core.now noted.now.lists.now }
    requires reached { spec.IsReach noted.now.core.now noted.now.entities.now reached.now }
    ensures { IfOk result (λ targets. spec.AreSent noted.now.core.now noted.now.entities.now entity targets) }
{
    noted.core.formed();
    let used = used_by(alloc, noted, reached, entity)?.to_vec(alloc)?;
    let messages = messages_of(alloc, noted.core, &used)?;
    ascending(alloc, &messages)
}
