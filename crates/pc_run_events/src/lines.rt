//! The events of a run, as lines.
ghost use Rattle.std.specs.Prelude.{◌≡◌, ◌++◌, IfOk, OnOk, decimal, length, slice_get};
ghost use Rattle.pc_run_events.specs.Events.{touches_in};
ghost use Rattle.pc_run_events.specs.Lines as spec;
ghost use Rattle.pc_run_events.specs.Parts as parts;
ghost use Rattle.pc_run_events.specs.Lines.{method_text};

use crate::events::{Deed, RunEvent};
use crate::method_names::{push_entity, push_method};
use itoa::Buffer;
use pc_base::List;
use pc_core::Core;
use pc_heap::Address;
use pc_semantics::Access;
use std::alloc::{AllocError, Global};

// Appends a number.
fn push_number(text: &mut Vec<u8>, number: u64) -> Result<(), AllocError>
    ensures { OnOk result (text.new.items ≡ text.old.items ++ decimal number) }
{
    let mut buffer = Buffer::new();
    text.extend_from_slice(buffer.format(number).as_bytes())
}

// Appends numbers, each after a comma.
fn push_more(text: &mut Vec<u8>, numbers: &[u64]) -> Result<(), AllocError>
    ensures { OnOk result (text.new.items ≡ text.old.items ++ parts.more_text numbers.now) }
{
    for number in numbers {
        text.push(b',')?;
        push_number(text, *number)?;
    }
    Ok(())
}

/// Appends the numbers of a clock, with a comma between any two.
pub(crate) fn push_clock(text: &mut Vec<u8>, clock: &[u64]) -> Result<(), AllocError>
    ensures { OnOk result (text.new.items ≡ text.old.items ++ parts.clock_text clock.now) }
{
    match clock {
        [] => Ok(()),
        [first, rest @ ..] => {
            push_number(text, *first)?;
            push_more(text, rest)
        }
    }
}

/// What an access does.
pub(crate) fn kind_of(write: bool) -> &'static str
    ensures { result.now ≡ spec.access_word write }
{
    if write { "write" } else { "read" }
}

// Appends an address.
fn push_address(text: &mut Vec<u8>, address: Address) -> Result<(), AllocError>
    ensures { OnOk result (text.new.items ≡ text.old.items ++ spec.address_text address) }
{
    push_number(text, u64::from(address.maker))?;
    text.push(b'.')?;
    push_number(text, u64::from(address.serial))
}

// Appends an access.
fn push_access(text: &mut Vec<u8>, access: &Access) -> Result<(), AllocError>
    ensures { OnOk result (text.new.items ≡ text.old.items ++ spec.access_text access.now) }
{
    text.extend_from_slice(kind_of(access.write).as_bytes())?;
    text.push(b' ')?;
    push_address(text, access.address)?;
    text.push(b' ')?;
    push_number(text, u64::from(access.field))
}

// Appends the take of a message.
fn push_take(text: &mut Vec<u8>, core: &Core, method: u32, sent: u64) -> Result<(), AllocError>
    ensures { OnOk result (text.new.items ≡ text.old.items ++ spec.take_text core.now method sent) }
{
    text.extend_from_slice(b"take ")?;
    push_method(text, core, method)?;
    text.push(b' ')?;
    push_number(text, sent)
}

// Appends an actor and the method of a message for it.
fn push_message(text: &mut Vec<u8>, core: &Core, actor: u32, method: u32) -> Result<(), AllocError>
    ensures { OnOk result (text.new.items ≡ text.old.items ++ spec.message_text core.now actor method) }
{
    push_number(text, u64::from(actor))?;
    text.push(b' ')?;
    push_method(text, core, method)
}

// Appends the making of an object.
fn push_new(
    text: &mut Vec<u8>,
    core: &Core,
    address: Address,
    entity: u32,
) -> Result<(), AllocError>
    ensures { OnOk result (text.new.items ≡ text.old.items ++ spec.new_text core.now address entity) }
{
    text.extend_from_slice(b"new ")?;
    push_address(text, address)?;
    text.push(b' ')?;
    push_entity(text, core, entity)
}

// Appends what an event does.
fn push_deed(text: &mut Vec<u8>, core: &Core, deed: &Deed) -> Result<(), AllocError>
    ensures { OnOk result (text.new.items ≡ text.old.items ++ spec.deed_text core.now deed.now) }
{
    match deed {
        Deed::Take { method, sent } => push_take(text, core, *method, *sent),
        Deed::Send { receiver, method } => {
            text.extend_from_slice(b"send ")?;
            push_message(text, core, *receiver, *method)
        }
        Deed::Make { actor, method } => {
            text.extend_from_slice(b"make ")?;
            push_message(text, core, *actor, *method)
        }
        Deed::New { address, entity } => push_new(text, core, *address, *entity),
        Deed::Touch(access) => push_access(text, access),
    }
}

// Appends the place and the actor of an event.
fn push_words(alloc: Global, text: &mut Vec<u8>, event: &RunEvent) -> Result<(), AllocError>
    ensures { OnOk result (text.new.items ≡ text.old.items ++ spec.event_words event.now) }
{
    let words = format!(in alloc; "{} {} ", event.place, event.actor)?;
    text.extend_from_slice(words.as_bytes())
}

// Appends the line of an event.
fn push_event(
    alloc: Global,
    text: &mut Vec<u8>,
    core: &Core,
    event: &RunEvent,
) -> Result<(), AllocError>
    ensures { OnOk result (text.new.items ≡ text.old.items ++ spec.event_line core.now event.now) }
{
    push_words(alloc, text, event)?;
    push_deed(text, core, &event.deed)?;
    text.extend_from_slice(b" clock ")?;
    push_clock(text, event.clock.as_slice())?;
    text.extend_from_slice(b"\n")
}

// Appends the lines of events.
fn push_events(
    alloc: Global,
    text: &mut Vec<u8>,
    core: &Core,
    events: &[RunEvent],
) -> Result<(), AllocError>
    ensures { OnOk result (text.new.items ≡ text.old.items ++ parts.events_text core.now events.now) }
{
    for event in events {
        push_event(alloc, text, core, event)?;
    }
    Ok(())
}

// Whether an event reads or writes a field.
fn is_access(deed: &Deed) -> bool
    ensures { result ≡ parts.is_access deed.now }
{
    match deed {
        Deed::Touch(_) => true,
        Deed::Take { .. } | Deed::Send { .. } | Deed::Make { .. } | Deed::New { .. } => false,
    }
}

// The number of these events that read or write a field.
fn count_accesses(events: &[RunEvent]) -> usize
    ensures { result ≡ length (touches_in events.now) }
{
    let mut count: usize = 0;
    for event in events {
        if is_access(&event.deed) {
            count += 1;
        }
    }
    count
}

// Appends the last line.
fn push_counts(
    alloc: Global,
    text: &mut Vec<u8>,
    events: usize,
    accesses: usize,
) -> Result<(), AllocError>
    ensures { OnOk result (text.new.items ≡ text.old.items ++ spec.event_count_line events accesses) }
{
    let words = format!(in alloc; "events {events} accesses {accesses} ordered\n")?;
    text.extend_from_slice(words.as_bytes())
}

/// The lines of the events of a run of a core, and then `events N accesses M ordered`.
pub fn write_events(alloc: Global, core: &Core, events: &[RunEvent]) -> Result<List<u8>, AllocError>
    ensures { IfOk result (λ text. text ≡ spec.events_text_of_run core.now events.now) }
{
    let mut text: Vec<u8> = Vec::new(alloc);
    push_events(alloc, &mut text, core, events)?;
    push_counts(alloc, &mut text, events.len(), count_accesses(events))?;
    Ok(List::from_vec(text))
}
