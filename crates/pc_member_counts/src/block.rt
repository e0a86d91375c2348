//! A summary of the methods with 64 consecutive names.
ghost use Rattle.std.specs.Prelude.{◌≡◌};
ghost use Rattle.pc_tree.specs.View.{method_view};
ghost use Rattle.pc_members.specs.Members.{is_takable as takes_over};
ghost use Rattle.pc_member_counts.specs.Blocks as spec;

use pc_masks::Mask;
use pc_tree::{EntityKind, MethodDef};

/// For each of 64 names, the properties of the first method with the name in a list of methods.
#[derive(Clone, Copy)]
pub(crate) struct Block {
    /// The names that no method has.
    pub(crate) absent: Mask,
    /// The names whose first method has a body and may be in a class.
    pub(crate) class: Mask,
    /// The same in an actor.
    pub(crate) actor: Mask,
    /// The same in a primitive.
    pub(crate) primitive: Mask,
}

impl Block {
    /// The block of no methods.
    pub(crate) fn nothing() -> Block
        ensures { result ≡ spec.nothing }
    {
        Block {
            absent: Mask::first(64),
            class: Mask(0),
            actor: Mask(0),
            primitive: Mask(0),
        }
    }

    /// The block of one method, whose name is at this place.
    pub(crate) fn single(place: u32, method: &MethodDef) -> Block
        ensures { result ≡ spec.single place (method_view method.now) }
    {
        Block {
            absent: Mask::first(64).without(place),
            class: alone_if(is_takable(EntityKind::Class, method), place),
            actor: alone_if(is_takable(EntityKind::Actor, method), place),
            primitive: alone_if(is_takable(EntityKind::Primitive, method), place),
        }
    }

    /// The block of these methods followed by those of the other.
    pub(crate) fn followed(self, next: Block) -> Block
        ensures { result ≡ spec.followed self next }
    {
        Block {
            absent: self.absent.meet(next.absent),
            class: self.class.join(self.absent.meet(next.class)),
            actor: self.actor.join(self.absent.meet(next.actor)),
            primitive: self.primitive.join(self.absent.meet(next.primitive)),
        }
    }

    /// The names that an entity of this kind takes over, if they are new to it.
    pub(crate) fn takable(self, kind: EntityKind) -> Mask
        ensures { result ≡ spec.takable kind self }
    {
        match kind {
            EntityKind::Class => self.class,
            EntityKind::Actor => self.actor,
            EntityKind::Primitive => self.primitive,
            EntityKind::Trait | EntityKind::Interface => Mask(0),
        }
    }
}

// The set with only this number, or the empty set.
fn alone_if(there: bool, number: u32) -> Mask
    ensures { result ≡ spec.alone_if there number }
{
    if there { Mask(0).with(number) } else { Mask(0) }
}

// Whether an entity of this kind takes the method over if its name is new.
fn is_takable(kind: EntityKind, method: &MethodDef) -> bool
    ensures { result ≡ takes_over kind (method_view method.now) }
{
    method.body.is_some() && kind.may_hold(method.word)
}
