//! The machine.
ghost use Rattle.std.specs.Prelude.{◌≡◌, ◌<◌, length, slice_get, option_copied, IfOk, OnErr};
ghost use Rattle.std.specs.FinMap.{len};
ghost use Rattle.pc_heap.specs.Heaps.{object_limit};
ghost use Rattle.pc_heap.specs.Objects.{class_at};
ghost use Rattle.pc_semantics.specs.Ahead.{ahead_of as next_step};
ghost use Rattle.pc_semantics.specs.Configurations as configurations;
ghost use Rattle.pc_semantics.specs.Safety as safety;
ghost use Rattle.pc_semantics.specs.Step as steps;
ghost use Rattle.pc_semantics.specs.Text as text;
ghost use Rattle.pc_machine.specs.Machines.{message_limit};

use crate::access::access_of;
use crate::ahead::ahead_of;
use crate::beginning::start_state;
use crate::state::State;
use crate::step::advance;
use pc_base::List;
use pc_core::Core;
use pc_heap::Address;
use pc_semantics::{Access, Actor, Ahead, Outcome};
use std::alloc::{AllocError, Global};
use std::marker::Model;

/// A core that runs: its objects, its actors and what was printed.
#[derive(Drop)]
pub struct Machine<'p> {
    alloc: Global,
    core: &'p Core,
    state: State,
}

impl<'p> Model for Machine<'p> {
    ghost use Rattle.pc_machine.specs.Machines.{MachineData, coded_machine};

    ghost Value = { MachineData };

    ghost coded = { coded_machine };

    ghost use Rattle.pc_machine.specs.States.{configuration_of, IsSound};

    ghost view = { λ m. record { core = m.core.now; configuration = configuration_of m.state } };

    ghost invariant = { λ m. IsSound m.core.now (configuration_of m.state) };
}

/// The machine of a core, at the start of its program.
pub fn start<'p>(alloc: Global, core: &'p Core) -> Result<Machine<'p>, AllocError>
    ensures core { IfOk result (λ machine. machine.core ≡ core.now) }
    ensures configuration { IfOk result (λ machine. machine.configuration ≡ configurations.start core.now) }
{
    let state = start_state(alloc, core)?;
    Ok(Machine { alloc, core, state })
}

impl<'p> Machine<'p> {
    /// One step of an actor: its first task, or its oldest message if it is idle. An `Err` leaves the configuration as
    /// it was, as every outcome but `Moved` does.
    #[inline(always)]
    pub fn step(&mut self, actor: u32) -> Result<Outcome, AllocError>
        requires objects { len self.old.configuration.objects < object_limit }
        requires messages { text.waiting self.old.configuration < message_limit }
        ensures ok { IfOk result (λ outcome. (outcome, self.new.configuration) ≡ steps.step self.old.core self.old.configuration actor) }
        ensures err { OnErr result (self.new.configuration ≡ self.old.configuration) }
        ensures core { self.new.core ≡ self.old.core }
    {
        advance(self.alloc, self.core, &mut self.state, actor)
    }

    /// The field of an object that an actor's next task reads or writes. `None` iff it touches none. It does not
    /// allocate.
    pub fn access(&self, actor: u32) -> Option<Access>
        ensures { result ≡ safety.access self.now.core self.now.configuration actor }
    {
        access_of(self.core, &self.state, actor)
    }

    /// What an actor's next step is. It does not allocate.
    pub fn ahead(&self, actor: u32) -> Ahead
        ensures { result ≡ next_step self.now.core self.now.configuration actor }
    {
        ahead_of(self.core, &self.state, actor)
    }

    /// The messages that wait for an actor, and what it is doing. `None` iff there is no such actor. It does not
    /// allocate.
    pub fn actor(&self, actor: u32) -> Option<&Actor>
        ensures { option_copied result ≡ slice_get self.now.configuration.actors actor }
    {
        self.state.actors.get(actor as usize)
    }

    /// The entity of the object at an address. `None` iff there is no object. It does not allocate.
    pub fn class_of(&self, address: Address) -> Option<u32>
        ensures { result ≡ class_at self.now.configuration.objects address }
    {
        self.state.heap.class_of(address)
    }

    /// The texts that were printed, in order. It does not allocate, like the calls below.
    pub fn printed(&self) -> &List<List<u8>>
        ensures { result.now ≡ self.now.configuration.printed }
    {
        &self.state.printed
    }

    /// The number of actors.
    pub fn actors(&self) -> u32
        ensures { result ≡ length self.now.configuration.actors }
    {
        self.state.actors.len() as u32
    }

    /// The number of objects.
    pub fn objects(&self) -> u64
        ensures { result ≡ len self.now.configuration.objects }
    {
        u64::from(self.state.heap.count())
    }

    /// The number of messages that wait.
    pub fn waiting(&self) -> u64
        ensures { result ≡ text.waiting self.now.configuration }
    {
        u64::from(self.state.actors.waiting())
    }

    /// The core that runs.
    pub fn core(&self) -> &'p Core
        ensures { result.now ≡ self.now.core }
    {
        self.core
    }
}
