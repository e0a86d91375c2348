//! What is read of a machine before a step.
ghost use Rattle.std.specs.Prelude.{◌≡◌};
ghost use Rattle.pc_run_events.specs.Events.{method_waiting};
ghost use Rattle.pc_run_events.specs.Sights as spec;

use pc_core::NodeKind;
use pc_heap::Address;
use pc_machine::Machine;
use pc_semantics::{Access, Ahead, Task};

/// What is known of a step of an actor before it is made.
#[derive(Clone, Copy, Debug, PartialEq, Eq)]
pub struct Sight {
    /// What the step is.
    pub ahead: Ahead,
    /// The number of actors.
    pub actors: u32,
    /// The number of objects.
    pub objects: u64,
    /// The field that the step reads or writes.
    pub access: Option<Access>,
    /// The method of the message that the step takes or sends.
    pub method: Option<u32>,
}

/// The method of the oldest message that waits for an actor. `None` iff none waits.
pub fn oldest_method(machine: &Machine<'_>, actor: u32) -> Option<u32>
    ensures { result ≡ method_waiting machine.now.configuration actor 0 }
{
    let found = machine.actor(actor)?;
    let message = found.mailbox.oldest()?;
    Some(message.method)
}

// The next task of an actor that is not idle.
fn next_task(machine: &Machine<'_>, actor: u32) -> Option<Task>
    ensures { result ≡ spec.next_task machine.now.configuration actor }
{
    let found = machine.actor(actor)?;
    let frame = found.frames.top()?;
    frame.tasks.top()
}

// The node of a task that calls or sends a method.
fn node_called(task: Task) -> Option<u32>
    ensures { result ≡ spec.node_called task }
{
    let Task::Invoke(node) = task else {
        return None;
    };
    Some(node)
}

// The name that a node calls.
fn name_called(kind: &NodeKind) -> Option<u32>
    ensures { result ≡ spec.name_called kind.now }
{
    let NodeKind::Call(name) = kind else {
        return None;
    };
    Some(*name)
}

// The method of this receiver that a task calls or sends.
fn method_called(machine: &Machine<'_>, task: Task, receiver: u32) -> Option<u32>
    ensures { result ≡ spec.method_called machine.now.core machine.now.configuration.objects task receiver }
{
    let core = machine.core();
    let node = core.node_at(node_called(task)?)?;
    let name = name_called(&node.kind)?;
    let entity = machine.class_of(Address {
        maker: receiver,
        serial: 0,
    })?;
    core.method(entity, name)
}

// The method of the message that an actor's next task sends to this receiver.
fn method_sent(machine: &Machine<'_>, actor: u32, receiver: u32) -> Option<u32>
    ensures { result ≡ spec.method_sent machine.now.core machine.now.configuration actor receiver }
{
    method_called(machine, next_task(machine, actor)?, receiver)
}

// The method of the message that a step of this kind takes or sends.
fn method_ahead(machine: &Machine<'_>, actor: u32, ahead: Ahead) -> Option<u32>
    ensures { result ≡ spec.method_ahead machine.now.core machine.now.configuration actor ahead }
{
    match ahead {
        Ahead::Take => oldest_method(machine, actor),
        Ahead::Send(receiver) => method_sent(machine, actor, receiver),
        Ahead::Spawn | Ahead::Task | Ahead::Skipped | Ahead::Lacks | Ahead::TooLong => None,
    }
}

/// What is known of the next step of an actor. It does not allocate.
pub fn look(machine: &Machine<'_>, actor: u32) -> Sight
    ensures { result ≡ spec.sight machine.now.core machine.now.configuration actor }
{
    let ahead = machine.ahead(actor);
    Sight {
        ahead,
        actors: machine.actors(),
        objects: machine.objects(),
        access: machine.access(actor),
        method: method_ahead(machine, actor, ahead),
    }
}
