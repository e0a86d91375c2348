//! A walk over methods, which finds what their nodes may make, spawn or call.
ghost use Rattle.std.specs.Prelude.{◌≡◌, ◌↔◌, ◌⊎◌, ◌≤◌, ℕ, [], length, slice_get, IsTrue, OnOk};
ghost use Rattle.std.specs.Option.{option_copied};
ghost use Rattle.pc_core.specs.CoreData.{node_end};
ghost use Rattle.pc_core.specs.Further.{own_nodes};
ghost use Rattle.pc_base.specs.Lists.{Has};
ghost use Rattle.pc_sends.specs.Found.{ListsMayBe};
ghost use Rattle.pc_sends.specs.Growth.{Grown, OfSome};
ghost use Rattle.pc_sends.specs.Tables as spec;
ghost use Rattle.pc_sends.specs.Found as finding;

use crate::calls::Calls;
use crate::found::Found;
use pc_base::List;
use pc_core::{Core, Method, MethodKind, Node};
use std::alloc::{AllocError, Global};

/// A core with the entities that are noted of it.
#[derive(Drop)]
pub(crate) struct Noted<'a> {
    pub(crate) core: &'a Core,
    /// The entity of each node's type, if it has one.
    pub(crate) entities: &'a [Option<u32>],
    /// For each entity, the entities that a value may have if it is known to be of it.
    pub(crate) lists: &'a [List<u32>],
}

/// What has been found, and the calls that have been looked at.
#[derive(Drop)]
pub(crate) struct Walk {
    pub(crate) found: Found,
    pub(crate) calls: Calls,
}

// ---- calls

fn is_called(kind: MethodKind) -> bool
    ensures { result ≡ spec.is_called kind }
{
    match kind {
        MethodKind::Fun | MethodKind::Be => true,
        MethodKind::New | MethodKind::Spawn => false,
    }
}

// The function or behaviour with this name of an entity.
fn called_in(core: &Core, name: u32, entity: u32) -> Option<u32>
    ensures { result ≡ finding.called_in core.now name entity }
{
    let number = core.method(entity, name)?;
    let method = core.method_at(number)?;
    if is_called(method.kind) {
        Some(number)
    } else {
        None
    }
}

// Finds that function or behaviour.
fn find_called(core: &Core, name: u32, entity: u32, found: &mut Found) -> Result<(), AllocError>
    ensures { OnOk result (Grown (λ t. finding.called_in core.now name entity ≡ Some t) found.old found.new) }
{
    match called_in(core, name, entity) {
        Some(number) => found.add(number),
        None => Ok(()),
    }
}

// Finds those of all these entities.
fn find_all(core: &Core, name: u32, entities: &[u32], found: &mut Found) -> Result<(), AllocError>
    ensures { OnOk result (Grown (OfSome (λ d t. finding.called_in core.now name d ≡ Some t) entities.now) found.old found.new) }
{
    for entity in entities {
        find_called(core, name, *entity, found)?;
    }
    Ok(())
}

// The list for an entity.
fn list_of<'a>(lists: &'a [List<u32>], entity: u32) -> Option<&'a List<u32>>
    ensures { option_copied result ≡ slice_get lists.now entity }
{
    lists.get(entity as usize)
}

// Finds what a call of this name may call, on a receiver that is known to be of entity `known`.
fn find_targets(noted: &Noted, name: u32, known: u32, found: &mut Found) -> Result<(), AllocError>
    requires { ListsMayBe noted.now.core.now noted.now.lists.now }
    ensures { OnOk result (Grown (spec.MayCall noted.now.core.now name known) found.old found.new) }
{
    match list_of(noted.lists, known) {
        Some(entities) => find_all(noted.core, name, entities.as_slice(), found),
        None => Ok(()),
    }
}

// The same, unless such a call has been looked at already.
fn see_call(noted: &Noted, name: u32, known: u32, walk: &mut Walk) -> Result<(), AllocError>
    requires lists { ListsMayBe noted.now.core.now noted.now.lists.now }
    requires known { finding.CallsAreFound noted.now.core.now walk.old.calls walk.old.found }
    ensures grown { OnOk result (Grown (spec.MayCall noted.now.core.now name known) walk.old.found walk.new.found) }
    ensures known { OnOk result (finding.CallsAreFound noted.now.core.now walk.new.calls walk.new.found) }
{
    if walk.calls.has(name, known) {
        return Ok(());
    }
    find_targets(noted, name, known, &mut walk.found)?;
    walk.calls.add(name, known)
}

// ---- nodes

// The last of these numbers.
fn last_of(children: &[u32]) -> Option<u32>
    ensures { result ≡ spec.last_child_of children.now }
{
    children.last().copied()
}

// The entity that is noted at a node.
fn noted_at(entities: &[Option<u32>], node: u32) -> Option<u32>
    ensures { result ≡ spec.noted_at entities.now node }
{
    *entities.get(node as usize)?
}

// The entity that is noted at the receiver of a call with these children.
fn noted_receiver(entities: &[Option<u32>], children: &[u32]) -> Option<u32>
    ensures { result ≡ spec.noted_receiver entities.now children.now }
{
    noted_at(entities, last_of(children)?)
}

// Finds what a node may make, spawn or call.
fn see_node(noted: &Noted, node: &Node, walk: &mut Walk) -> Result<(), AllocError>
    requires lists { ListsMayBe noted.now.core.now noted.now.lists.now }
    requires known { finding.CallsAreFound noted.now.core.now walk.old.calls walk.old.found }
    ensures grown { OnOk result (Grown (spec.Aims noted.now.core.now noted.now.entities.now node.now.kind node.now.children) walk.old.found walk.new.found) }
    ensures known { OnOk result (finding.CallsAreFound noted.now.core.now walk.new.calls walk.new.found) }
{
    if let Some(number) = node.kind.constructor() {
        return walk.found.add(number);
    }
    let Some(name) = node.kind.called_name() else {
        return Ok(());
    };
    match noted_receiver(noted.entities, node.children.as_slice()) {
        Some(known) => see_call(noted, name, known, walk),
        None => Ok(()),
    }
}

// Finds what these nodes may make, spawn or call.
fn see_nodes(noted: &Noted, nodes: &[Node], walk: &mut Walk) -> Result<(), AllocError>
    requires lists { ListsMayBe noted.now.core.now noted.now.lists.now }
    requires known { finding.CallsAreFound noted.now.core.now walk.old.calls walk.old.found }
    ensures grown { OnOk result (Grown (OfSome (λ x t. spec.Aims noted.now.core.now noted.now.entities.now x.kind x.children t) nodes.now) walk.old.found walk.new.found) }
    ensures known { OnOk result (finding.CallsAreFound noted.now.core.now walk.new.calls walk.new.found) }
{
    for node in nodes {
        see_node(noted, node, walk)?;
    }
    Ok(())
}

// ---- methods

// The number after a method's last node.
fn end_of(method: &Method) -> usize
    ensures { result ≡ node_end method.now.first_node method.now.body }
{
    match method.body {
        Some(body) => body as usize + 1,
        None => method.first_node as usize,
    }
}

// The nodes of a method.
fn nodes_of<'a>(core: &'a Core, method: &Method) -> &'a [Node]
    requires from { method.now.first_node ≤ node_end method.now.first_node method.now.body }
    requires to { node_end method.now.first_node method.now.body ≤ length core.now.nodes }
    ensures { result.now ≡ own_nodes core.now method.now }
{
    &core.nodes()[method.first_node as usize..end_of(method)]
}

impl Walk {
    pub(crate) fn new(alloc: Global) -> Walk
        ensures found { result.found ≡ [] }
        ensures calls { result.calls ≡ [] }
    {
        Walk {
            found: Found::new(alloc),
            calls: Calls::new(alloc),
        }
    }

    /// Finds what a method's nodes may make, spawn or call.
    pub(crate) fn see_method(&mut self, noted: &Noted, number: u32) -> Result<(), AllocError>
        requires lists { ListsMayBe noted.now.core.now noted.now.lists.now }
        requires known { finding.CallsAreFound noted.now.core.now self.old.calls self.old.found }
        ensures grown { OnOk result (Grown (spec.UsesMethod noted.now.core.now noted.now.entities.now number) self.old.found self.new.found) }
        ensures known { OnOk result (finding.CallsAreFound noted.now.core.now self.new.calls self.new.found) }
    {
        noted.core.formed();
        match noted.core.method_at(number) {
            Some(method) => see_nodes(noted, nodes_of(noted.core, method), self),
            None => Ok(()),
        }
    }
}
