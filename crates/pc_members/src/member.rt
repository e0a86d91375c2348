//! The members of an entity.
ghost use Rattle.pc_members.specs.MemberLists as lists;
ghost use Rattle.std.specs.Prelude.{◌≡◌, ◌++◌, map, IfOk, OnOk};
ghost use Rattle.pc_tree.specs.View.{entity_view, method_view};
ghost use Rattle.pc_members.specs.Members as spec;
ghost use Rattle.pc_members.specs.Rounds as rounds;
ghost use Rattle.pc_members.specs.Views.{member_view, members_view};

use crate::constructors::has_added;
use pc_base::{List, Span};
use pc_tree::{Entity, EntityKind, MethodDef, MethodWord};
use std::alloc::{AllocError, Global};

/// A member of an entity.
#[derive(Clone, Copy)]
pub enum Member<'a> {
    /// A written method, in the entity itself or in a trait or an interface from which it is taken over.
    Written(&'a MethodDef),
    /// A method of a trait or an interface, which has no body there.
    Bodiless(&'a MethodDef),
    /// The constructor `create`, added to a class or actor without a constructor.
    Added,
}

impl<'a> Member<'a> {
    /// The member's name.
    pub fn text(&self) -> &[u8]
        ensures { result.now ≡ spec.member_text (member_view self.now) }
    {
        match self {
            Member::Written(method) => method.name.text.as_slice(),
            Member::Bodiless(method) => method.name.text.as_slice(),
            Member::Added => b"create",
        }
    }

    /// The span of the member, in an entity whose name has this span.
    pub fn span(&self, entity: Span) -> Span
        ensures { result ≡ lists.member_span entity (member_view self.now) }
    {
        match self {
            Member::Written(method) => method.name.span,
            Member::Bodiless(method) => method.name.span,
            Member::Added => entity,
        }
    }

    /// Whether it is a constructor.
    pub fn is_constructor(&self) -> bool
        ensures { result ≡ lists.is_constructor (member_view self.now) }
    {
        match self {
            Member::Written(method) => matches!(method.word, MethodWord::New),
            Member::Bodiless(method) => matches!(method.word, MethodWord::New),
            Member::Added => true,
        }
    }

    /// The same member in a trait or an interface, without its body.
    pub(crate) fn without_body(self) -> Member<'a>
        ensures { member_view result ≡ rounds.bodiless (member_view self.entry) }
    {
        match self {
            Member::Written(method) => Member::Bodiless(method),
            Member::Bodiless(method) => Member::Bodiless(method),
            Member::Added => Member::Added,
        }
    }

    /// Whether an entity of this kind takes the member over if its name is new: a method with a body that may be in
    /// such an entity.
    pub(crate) fn is_takable(&self, kind: EntityKind) -> bool
        ensures { result ≡ rounds.member_takable kind (member_view self.now) }
    {
        match self {
            Member::Written(method) => method.body.is_some() && kind.may_hold(method.word),
            Member::Bodiless(_) => false,
            Member::Added => false,
        }
    }
}

/// Appends these methods to the members.
pub(crate) fn add_written<'a>(
    members: &mut List<Member<'a>>,
    methods: &'a [MethodDef],
) -> Result<(), AllocError>
    ensures { OnOk result (members_view members.new ≡ members_view members.old ++ map spec.written (map method_view methods.now)) }
{
    for method in methods {
        members.push(Member::Written(method))?;
    }
    Ok(())
}

/// The methods written in an entity, and its added `create`.
pub(crate) fn own_members<'a>(
    alloc: Global,
    entity: &'a Entity,
) -> Result<List<Member<'a>>, AllocError>
    ensures { IfOk result (λ l. members_view l ≡ rounds.own_members (entity_view entity.now)) }
{
    let mut members = List::new(alloc);
    add_written(&mut members, entity.methods.as_slice())?;
    if has_added(entity) {
        members.push(Member::Added)?;
    }
    Ok(members)
}
