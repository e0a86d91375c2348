//! The actors of a machine, with a count of the messages that wait for them.
ghost use Rattle.std.specs.Prelude.{◌≡◌, ◌+◌, ◌<◌, ◌^◌, ◌-◌, ◌++◌, ◌∷◌, [], length, take, slice_get, option_copied, IsSomeAnd, IfOk, OnOk, OnErr};
ghost use Rattle.pc_machine.specs.Changed.{changed, framed, mailed, unmailed, frames_of, messages_in};
ghost use Rattle.pc_machine.specs.Ran.{RanAt};
ghost use Rattle.pc_tasks.specs.Inside.{IsInside};

use crate::inside::run_in;
use pc_core::Core;
use pc_heap::Heap;
use pc_semantics::{Actor, Frame, Mailbox, Message, Outcome, Stack};
use std::alloc::{AllocError, Global};
use std::marker::Model;
use std::mem;

/// Actors, in the order in which they were made.
#[derive(Drop)]
pub struct Actors {
    all: Vec<Actor>,
    waiting: u32,
}

impl Model for Actors {
    ghost use Rattle.std.specs.Prelude.{◌≡◌, List as Sequence};
    ghost use Rattle.pc_semantics.specs.declared.actors.Actor.{Actor};
    ghost use Rattle.pc_machine.specs.Changed.{messages_in};

    ghost Value = { Sequence Actor };

    ghost view = { λ actors. actors.all.items };

    ghost invariant = { λ actors. actors.waiting ≡ messages_in actors.all.items };
}

impl Actors {
    /// No actors. It does not allocate.
    pub fn new(alloc: Global) -> Actors
        ensures { result ≡ [] }
    {
        Actors {
            all: Vec::new(alloc),
            waiting: 0,
        }
    }

    /// The number of actors.
    pub fn len(&self) -> usize
        ensures { result ≡ length self.now }
    {
        self.all.len()
    }

    /// The number of messages that wait for them.
    pub fn waiting(&self) -> u32
        ensures { result ≡ messages_in self.now }
    {
        self.waiting
    }

    /// The actor with a number. `None` iff there is none.
    #[inline(always)]
    pub fn get(&self, actor: usize) -> Option<&Actor>
        ensures { option_copied result ≡ slice_get self.now actor }
    {
        self.all.get(actor)
    }

    /// Puts an actor after the others. An `Err` changes nothing.
    pub fn add(&mut self, actor: Actor) -> Result<(), AllocError>
        requires { messages_in self.old + length actor.mailbox < 2 ^ 32 }
        ensures ok { OnOk result (self.new ≡ self.old ++ actor ∷ []) }
        ensures err { OnErr result (self.new ≡ self.old) }
    {
        let waiting = actor.mailbox.len() as u32;
        self.all.push(actor)?;
        self.waiting += waiting;
        Ok(())
    }

    /// Puts a message after those that wait for an actor. An `Err` changes nothing.
    pub fn deliver(&mut self, actor: usize, message: Message) -> Result<(), AllocError>
        requires there { actor < length self.old }
        requires few { messages_in self.old + 1 < 2 ^ 32 }
        ensures ok { OnOk result (self.new ≡ changed self.old actor (mailed message)) }
        ensures err { OnErr result (self.new ≡ self.old) }
    {
        deliver_to(&mut self.all, actor, message)?;
        self.waiting += 1;
        Ok(())
    }

    /// Drops the oldest message of an actor for whom one waits. It does not allocate.
    pub fn take(&mut self, actor: usize)
        requires { IsSomeAnd (slice_get self.old actor) (λ a. 0 < length a.mailbox) }
        ensures { self.new ≡ changed self.old actor unmailed }
    {
        take_from(&mut self.all, actor);
        self.waiting -= 1;
    }

    /// Does the first task of an actor's running frame, if it concerns that frame and the objects alone. An `Err`
    /// changes nothing.
    #[inline(always)]
    pub fn run_frame(
        &mut self,
        alloc: Global,
        core: &Core,
        heap: &mut Heap,
        actor: usize,
    ) -> Result<Outcome, AllocError>
        requires { IsSomeAnd (slice_get (frames_of self.old actor) 0) (λ f. IsInside (slice_get f.tasks 0)) }
        ensures ok { IfOk result (λ o. RanAt core.now heap.old.objects self.old actor o heap.new.objects self.new) }
        ensures objects { OnErr result (heap.new.objects ≡ heap.old.objects) }
        ensures actors { OnErr result (self.new ≡ self.old) }
    {
        run_in(alloc, core, heap, &mut self.all, actor)
    }

    /// Replaces the frames of an actor, and returns the old ones. It does not allocate.
    pub fn swap_frames(&mut self, actor: usize, frames: Stack<Frame>) -> Stack<Frame>
        requires { actor < length self.old }
        ensures new { self.new ≡ changed self.old actor (framed frames) }
        ensures before { result ≡ frames_of self.old actor }
    {
        swap_frames_of(&mut self.all, actor, frames)
    }

    /// Removes the last actor. It does not allocate.
    pub fn withdraw(&mut self)
        ensures { self.new ≡ take (length self.old - 1) self.old }
    {
        if let Some(last) = self.all.pop() {
            self.waiting -= last.mailbox.len() as u32;
            drop(last);
        }
    }
}

/// An actor that has nothing to do. It does not allocate.
pub fn idle_actor(alloc: Global) -> Actor
    ensures { result ≡ record { mailbox = []; frames = [] } }
{
    Actor {
        mailbox: Mailbox::new(alloc),
        frames: Stack::new(alloc),
    }
}

/// An actor for whom one message waits.
pub fn waiting_actor(alloc: Global, message: Message) -> Result<Actor, AllocError>
    ensures { IfOk result (λ actor. actor ≡ record { mailbox = message ∷ []; frames = [] }) }
{
    let mut mailbox = Mailbox::new(alloc);
    mailbox.deliver(message)?;
    let frames = Stack::new(alloc);
    Ok(Actor { mailbox, frames })
}

// Puts a message after those that wait for one of these actors.
fn deliver_to(all: &mut Vec<Actor>, actor: usize, message: Message) -> Result<(), AllocError>
    requires { actor < length all.old.items }
    ensures ok { OnOk result (all.new.items ≡ changed all.old.items actor (mailed message)) }
    ensures err { OnErr result (all.new.items ≡ all.old.items) }
{
    let to = &mut all[actor];
    to.mailbox.deliver(message)?;
    Ok(())
}

// Removes the oldest message of one of these actors.
fn take_from(all: &mut Vec<Actor>, actor: usize)
    requires { actor < length all.old.items }
    ensures { all.new.items ≡ changed all.old.items actor unmailed }
{
    let from = &mut all[actor];
    drop(from.mailbox.take());
}

// Gives one of these actors other frames.
fn swap_frames_of(all: &mut Vec<Actor>, actor: usize, frames: Stack<Frame>) -> Stack<Frame>
    requires { actor < length all.old.items }
    ensures new { all.new.items ≡ changed all.old.items actor (framed frames) }
    ensures before { result ≡ frames_of all.old.items actor }
{
    let of = &mut all[actor];
    mem::replace(&mut of.frames, frames)
}
