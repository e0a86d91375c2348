//! The methods of a program with their slots and nodes, member by member.
ghost use Rattle.std.specs.Prelude.{◌≡◌, slice_get, IfOk, OnOk};
ghost use Rattle.pc_tree.specs.View.{entity_view};
ghost use Rattle.pc_body_walks.specs.Checking.{TellsFirstBodyFault};
ghost use Rattle.pc_emit.specs.Giving.{GivesBody};
ghost use Rattle.pc_members.specs.Views.{member_view};
ghost use Rattle.pc_body_spec.specs.Methods.{local_names};
ghost use Rattle.pc_file_spec.specs.Cores.{owned, and_member, built_in_parts as language_parts};
ghost use Rattle.pc_file_spec.specs.Cores as signatures;
ghost use Rattle.pc_elab.specs.Outcomes as spec;
ghost use Rattle.pc_elab.specs.Views.{parts_view};

use crate::language::make_print;
use crate::signature::{kind_of, params_of, receiver_of, result_of};
use crate::slots::add_slots;
use pc_base::{List, SLOT_LIMIT, Span};
use pc_body_walks::{BodyFault, Local, check, check_added};
use pc_core::{Method, Node, ParamInfo, Slot};
use pc_emit::{EmitStop, emit, emit_added};
use pc_members::Member;
use pc_names::{NameFault, Which};
use pc_resolve::Context;
use pc_tree::{Entity, MethodWord};
use std::alloc::{AllocError, Global};

/// How many methods, slots or nodes a program may have at most. No memory could hold more.
const MOST: usize = 4_294_967_295;

/// The first slot past the limit has this index, counted after the slot of `this`.
const EXTRA_SLOT: usize = SLOT_LIMIT as usize - 1;

/// The methods, slots and nodes so far.
#[derive(Drop)]
pub(crate) struct Parts {
    pub(crate) methods: List<Method>,
    pub(crate) slots: List<Slot>,
    pub(crate) nodes: List<Node>,
}

// A count as a 32-bit number.
fn number(count: usize) -> Result<u32, AllocError>
    ensures { IfOk result (λ n. n ≡ count) }
{
    if count > MOST {
        return Err(AllocError);
    }
    Ok(count as u32)
}

// The fault of a file that corresponds to a fault of a body.
fn name_fault(fault: BodyFault) -> NameFault
    ensures { result ≡ spec.as_name_fault fault }
{
    match fault {
        BodyFault::Unknown(span) => NameFault::Unknown(span),
        BodyFault::Double(span) => NameFault::Double(span),
        BodyFault::LongText(span) => NameFault::TooMany(Which::Text, span),
        BodyFault::Memory => NameFault::Memory,
    }
}

// Whether the body of a member has no fault. Without a body, a constructor has that of its initial values.
#[tactic(auto, using(crate::proofs::Behind::nothing_behind))]
fn check_body(
    alloc: Global,
    context: &Context,
    entity: &Entity,
    member: Member,
) -> Result<(), BodyFault>
    ensures { TellsFirstBodyFault result (spec.member_faults context.now (entity_view entity.now) (member_view member.entry)) }
{
    let fields = entity.fields.as_slice();
    match member {
        Member::Written(method) => check(alloc, context, fields, method),
        Member::Bodiless(method) => match method.word {
            MethodWord::New => check_added(alloc, context, fields),
            MethodWord::Fun | MethodWord::Be => Ok(()),
        },
        Member::Added => check_added(alloc, context, fields),
    }
}

// The span of the name of the 65th slot, if a member with these locals has that many.
fn extra_slot(member: Member, locals: &[Local]) -> Option<Span>
    ensures { result ≡ spec.extra_slot (member_view member.entry) locals.now }
{
    match member {
        Member::Written(method) | Member::Bodiless(method) => match method.params.get(EXTRA_SLOT) {
            Some(param) => Some(param.name.span),
            None => local_at(locals, EXTRA_SLOT.saturating_sub(method.params.len())),
        },
        Member::Added => local_at(locals, EXTRA_SLOT),
    }
}

// The span of the name of the local with this index.
fn local_at(locals: &[Local], index: usize) -> Option<Span>
    ensures { result ≡ spec.span_of (slice_get (local_names locals.now) index) }
{
    match locals.get(index) {
        Some(local) => Some(local.name().span),
        None => None,
    }
}

// Emits the nodes of a member that is this method, after the others. A trait's method has none.
fn put_body(
    alloc: Global,
    context: &Context,
    method: u32,
    nodes: &mut List<Node>,
    entity: &Entity,
    member: Member,
) -> Result<Option<u32>, EmitStop>
    ensures { GivesBody result nodes.new (spec.member_rose context.now (entity_view entity.now) (member_view member.entry)) method nodes.old }
{
    let fields = entity.fields.as_slice();
    match member {
        Member::Written(written) => emit(alloc, context, method, nodes, fields, written),
        Member::Bodiless(_) => Ok(None),
        Member::Added => {
            let body = emit_added(alloc, context, method, nodes, fields, entity.name.span)?;
            Ok(Some(body))
        }
    }
}

// Whether a member with these locals has no fault other than too many nodes. A fault of its body takes precedence over
// its 65th slot.
#[tactic(auto, using(crate::proofs::Outcomes::no_fault))]
fn check_member(
    alloc: Global,
    context: &Context,
    entity: &Entity,
    member: Member,
    locals: &[Local],
) -> Result<(), NameFault>
    ensures { spec.PassesOrStops result (spec.before_nodes context.now (entity_view entity.now) (member_view member.entry) locals.now) }
{
    match check_body(alloc, context, entity, member) {
        Err(fault) => Err(name_fault(fault)),
        Ok(()) => match extra_slot(member, locals) {
            Some(span) => Err(NameFault::TooMany(Which::Slots, span)),
            None => Ok(()),
        },
    }
}

// Emits the body of a member with these locals as this method, after the other nodes, or returns its first fault.
fn member_outcome(
    alloc: Global,
    context: &Context,
    method: u32,
    nodes: &mut List<Node>,
    entity: &Entity,
    member: Member,
    locals: &[Local],
) -> Result<Option<u32>, NameFault>
    ensures { spec.Becomes result nodes.new (spec.outcome_with context.now method (entity_view entity.now) (member_view member.entry) locals.now nodes.old) }
{
    check_member(alloc, context, entity, member, locals)?;
    match put_body(alloc, context, method, nodes, entity, member) {
        Ok(body) => Ok(body),
        Err(EmitStop::Full) => Err(NameFault::TooMany(Which::Nodes, member.span(entity.name.span))),
        Err(EmitStop::Memory) => Err(NameFault::Memory),
    }
}

// The place of a method's nodes.
#[derive(Clone, Copy)]
struct Nodes {
    first: u32,
    body: Option<u32>,
}

// The places of its slots and its nodes.
#[derive(Clone, Copy)]
struct Places {
    first_slot: u32,
    slots: u32,
    nodes: Nodes,
}

// A member of the entity with this number as a method, with these parameters and places.
fn declare(
    context: &Context,
    number_of_entity: u32,
    entity: &Entity,
    member: Member,
    params: List<ParamInfo>,
    places: Places,
) -> Method
    requires { params ≡ signatures.params_of context.now.entities (member_view member) }
    ensures { result ≡ signatures.declared context.now (owned number_of_entity (entity_view entity.now) (member_view member.entry)) places.first_slot places.slots places.nodes.first places.nodes.body }
{
    Method {
        entity: number_of_entity,
        name: context.text_of(member.text()),
        kind: kind_of(entity.kind, member),
        receiver: receiver_of(member),
        params,
        result: result_of(context, entity.kind, number_of_entity, member),
        first_slot: places.first_slot,
        slots: places.slots,
        first_node: places.nodes.first,
        body: places.nodes.body,
        span: member.span(entity.name.span),
    }
}

// Appends the method and the slots of a member of the entity with this number. Its nodes are there already.
fn join(
    alloc: Global,
    context: &Context,
    parts: &mut Parts,
    number_of_entity: u32,
    entity: &Entity,
    member: Member,
    locals: &[Local],
    nodes: Nodes,
) -> Result<(), AllocError>
    requires { locals.now ≡ signatures.member_locals (entity_view entity.now) (member_view member) }
    ensures { OnOk result (parts_view parts.new ≡ spec.joined_with context.now (parts_view parts.old) (owned number_of_entity (entity_view entity.now) (member_view member.entry)) nodes.first nodes.body) }
{
    let method = number(parts.methods.len())?;
    let first_slot = number(parts.slots.len())?;
    let params = params_of(alloc, context, member)?;
    let slots = &mut parts.slots;
    add_slots(
        context,
        slots,
        method,
        number_of_entity,
        member,
        params.as_slice(),
        locals,
    )?;
    let behind = number(parts.slots.len())?;
    let places = Places {
        first_slot,
        slots: behind - first_slot,
        nodes,
    };
    let declared = declare(context, number_of_entity, entity, member, params, places);
    parts.methods.push(declared)?;
    Ok(())
}

/// Appends a member of the entity with this number, with these locals, or reports its first fault.
pub(crate) fn add_member(
    alloc: Global,
    context: &Context,
    parts: &mut Parts,
    number_of_entity: u32,
    entity: &Entity,
    member: Member,
    locals: &[Local],
) -> Result<(), NameFault>
    requires { locals.now ≡ signatures.member_locals (entity_view entity.now) (member_view member) }
    ensures { spec.Grows result (parts_view parts.new) (and_member context.now (parts_view parts.old) (owned number_of_entity (entity_view entity.now) (member_view member.entry))) }
{
    let method = number(parts.methods.len())?;
    let first = number(parts.nodes.len())?;
    let nodes = &mut parts.nodes;
    let body = member_outcome(alloc, context, method, nodes, entity, member, locals)?;
    let nodes = Nodes { first, body };
    join(
        alloc,
        context,
        parts,
        number_of_entity,
        entity,
        member,
        locals,
        nodes,
    )?;
    Ok(())
}

/// The parts before those of a file: the built-in method, which has no slots and no nodes.
pub(crate) fn built_in_parts(alloc: Global) -> Result<Parts, AllocError>
    ensures { IfOk result (λ p. parts_view p ≡ language_parts) }
{
    let mut methods = List::new(alloc);
    methods.push(make_print(alloc)?)?;
    Ok(Parts {
        methods,
        slots: List::new(alloc),
        nodes: List::new(alloc),
    })
}
