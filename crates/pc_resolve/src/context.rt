//! What stays the same throughout the body of a method, and the meaning of names in it.
ghost use Rattle.pc_body_spec.specs.Fold as fold;
ghost use Rattle.std.specs.Prelude.{◌≡◌, ◌<◌, ◌^◌, length, Option, IfOk, OnOk, OnErr, if◌then◌else◌};
ghost use Rattle.pc_body_spec.specs.Bodies as spec;
ghost use Rattle.pc_body_spec.specs.Bodies.{apply_name};
ghost use Rattle.pc_body_spec.specs.Faults.{is_entity};
ghost use Rattle.pc_body_spec.specs.Parts as parts;
ghost use Rattle.pc_resolve.specs.Meanings.{meaning_view, type_view};

use crate::entities::{Entities, Known};
use crate::local_slots::LocalSlots;
use crate::meaning::{Meaning, TypeMeaning};
use crate::name_row::NameRow;
use crate::scope::{Visible, slot_of};
use pc_base::{List, ShortBytes};
use pc_caps::Cap;
use pc_keyed::KeyedBy;
use pc_members::NameTable;
use pc_tree::{EntityKind, FIRST_OWN, NONE_ENTITY, TypeRef};
use std::alloc::{AllocError, Global};
use std::marker::Model;

/// What stays the same throughout the body of a method: the names of the fields and methods of its entity, the entities
/// and texts of the program by their numbers, and the slots of the method's locals. All of them are looked up by hash,
/// and the text `apply` once for all calls of values.
#[derive(Drop)]
pub struct Context {
    members: Members,
    entities: Entities,
    texts: NameTable,
    apply: u32,
    slots: LocalSlots,
}

// The names of the fields and methods of an entity.
#[derive(Drop)]
struct Members {
    fields: NameRow,
    methods: NameRow,
}

impl Members {
    // These names, looked up by a hash with this key. `Err` if memory runs out.
    fn of(
        alloc: Global,
        key: KeyedBy,
        fields: List<ShortBytes>,
        methods: List<ShortBytes>,
    ) -> Result<Members, AllocError>
        ensures fields { IfOk result (λ members. members.fields ≡ fields) }
        ensures methods { IfOk result (λ members. members.methods ≡ methods) }
    {
        let fields = NameRow::of(alloc, key, fields)?;
        let methods = NameRow::of(alloc, key, methods)?;
        Ok(Members { fields, methods })
    }
}

impl Model for Context {
    ghost use Rattle.std.specs.Prelude.{◌≡◌, ◌<◌, ◌^◌, length, if◌then◌else◌};
    ghost use Rattle.pc_body_spec.specs.Bodies.{Context as Seen, apply_name, text_from};

    ghost Value = { Seen };

    ghost view = { λ c. record { fields = c.members.fields; methods = c.members.methods; entities = c.entities; texts = c.texts; slots = c.slots } };

    ghost invariant = { λ c. (length c.entities < 2 ^ 32) × (c.apply ≡ text_from 0 c.texts apply_name) };
}

impl Context {
    /// The context of a method: the names of the fields and methods of its entity, the entities of the program by their
    /// numbers, the built-in ones first, the texts of the program by their numbers, and the slots of the method's
    /// locals. Names are looked up by a hash with the key of the texts. `Err` if memory runs out.
    pub fn new(
        alloc: Global,
        fields: List<ShortBytes>,
        methods: List<ShortBytes>,
        entities: List<Known>,
        texts: NameTable,
        slots: LocalSlots,
    ) -> Result<Context, AllocError>
        requires { length entities < 2 ^ 32 }
        ensures { IfOk result (λ context. context ≡ record { fields = fields; methods = methods; entities = entities; texts = texts; slots = slots }) }
    {
        let key = texts.key();
        let members = Members::of(alloc, key, fields, methods)?;
        let entities = Entities::of(alloc, key, entities)?;
        let apply = number_in(&texts, b"apply");
        Ok(Context {
            members,
            entities,
            texts,
            apply,
            slots,
        })
    }

    /// Moves on to another entity, whose fields and methods have these names. `Err` if memory runs out, and then
    /// nothing has changed.
    pub fn set_members(
        &mut self,
        alloc: Global,
        fields: List<ShortBytes>,
        methods: List<ShortBytes>,
    ) -> Result<(), AllocError>
        ensures ok { OnOk result (self.new ≡ record { fields = fields; methods = methods; entities = self.old.entities; texts = self.old.texts; slots = self.old.slots }) }
        ensures err { OnErr result (self.new ≡ self.old) }
    {
        self.members = Members::of(alloc, self.key(), fields, methods)?;
        Ok(())
    }

    /// Moves on to another method, whose locals have these slots.
    pub fn set_slots(&mut self, slots: LocalSlots)
        ensures { self.new ≡ record { fields = self.old.fields; methods = self.old.methods; entities = self.old.entities; texts = self.old.texts; slots = slots } }
    {
        self.slots = slots;
    }

    /// The meaning of a bare name if these locals and parameters are visible: a local or parameter, else a field of the
    /// entity, else a method of the entity.
    pub fn resolve(&self, scope: &[Visible], name: &[u8]) -> Meaning
        ensures { meaning_view result ≡ spec.resolve self.now scope.now name.now }
    {
        self.meaning(slot_of(scope, name), name)
    }

    /// The meaning of a bare name, given the slot of the visible local or parameter with this name, if there is one.
    pub fn meaning(&self, local: Option<u32>, name: &[u8]) -> Meaning
        ensures { meaning_view result ≡ spec.unless_local local (spec.member (spec.is_among_names self.now.fields name.now) (spec.is_among_names self.now.methods name.now)) }
    {
        if let Some(slot) = local {
            return Meaning::Local(slot);
        }
        if self.members.fields.has(name) {
            return Meaning::Field;
        }
        if self.members.methods.has(name) {
            Meaning::Method
        } else {
            Meaning::Nothing
        }
    }

    /// The meaning of a type name as an expression: the value of a primitive, an entity with constructors, or nothing.
    #[tactic(auto, using(crate::proofs::Found::type_found))]
    pub fn type_meaning(&self, name: &[u8]) -> TypeMeaning<'_>
        ensures { type_view result ≡ spec.type_meaning self.now name.now }
    {
        match self.entities.find(name) {
            Some((number, known)) => meaning_of(number, known),
            None => TypeMeaning::NoValue,
        }
    }

    /// Whether an entity of the program has this name.
    #[tactic(auto, using(crate::proofs::Found::is_entity_found))]
    pub fn has_entity(&self, name: &[u8]) -> bool
        ensures { result ≡ is_entity self.now.entities name.now }
    {
        self.entities.find(name).is_some()
    }

    /// The slot of the local whose name begins at this byte in its definition, or 0 if there is none.
    pub fn slot_at(&self, start: u32) -> u32
        ensures { result ≡ spec.slot_at self.now.slots start }
    {
        self.slots.at(start)
    }

    /// The number of a text, or 0 if it is not one of the program's.
    pub fn text_of(&self, name: &[u8]) -> u32
        ensures { result ≡ spec.number_of_text self.now name.now }
    {
        number_in(&self.texts, name)
    }

    /// The number of the text `apply`, or 0 if it is not one of the program's.
    pub fn apply(&self) -> u32
        ensures { result ≡ spec.number_of_text self.now apply_name }
    {
        self.apply
    }

    /// The number and the capability of a written type: the capability of its entity if none is written. `None` iff
    /// there is no such entity.
    #[tactic(auto, using(crate::proofs::Found::written_found))]
    pub fn type_of(&self, ty: &TypeRef) -> Option<(u32, Cap)>
        ensures { result ≡ fold.type_of_name 0 self.now.entities ty.now }
    {
        match self.entities.find(ty.name.text.as_slice()) {
            Some((number, known)) => Some((number, cap_or(ty.cap, known.cap))),
            None => None,
        }
    }

    /// The key of the hashes by which names are looked up. No result depends on it.
    pub fn key(&self) -> KeyedBy {
        self.texts.key()
    }

    /// The texts of the program by their numbers.
    pub fn texts(&self) -> &NameTable
        ensures { result.now ≡ self.now.texts }
    {
        &self.texts
    }
}

// The number of a text in this table, or 0 if it is not there.
#[tactic(auto, using(crate::proofs::Texts::text_found))]
fn number_in(texts: &NameTable, name: &[u8]) -> u32
    ensures { result ≡ spec.text_from 0 texts.now name.now }
{
    match texts.find(name) {
        Some(number) => number,
        None => 0,
    }
}

// The capability that is written, or else that of the entity.
fn cap_or(written: Option<Cap>, own: Cap) -> Cap
    ensures { result ≡ parts.cap_or written own }
{
    match written {
        Some(cap) => cap,
        None => own,
    }
}

// The meaning of the name of the entity with this number.
fn meaning_of(number: u32, known: &Known) -> TypeMeaning<'_>
    ensures { type_view result ≡ if spec.is_own number then spec.by_kind known.now.kind number known.now.constructors else spec.no_value }
{
    // Of the built-in entities only None has a value that its name denotes.
    if number != NONE_ENTITY && number < FIRST_OWN {
        return TypeMeaning::NoValue;
    }
    match known.kind {
        EntityKind::Class => TypeMeaning::Created {
            actor: false,
            constructors: &known.constructors,
        },
        EntityKind::Actor => TypeMeaning::Created {
            actor: true,
            constructors: &known.constructors,
        },
        EntityKind::Primitive => TypeMeaning::Primitive(number),
        EntityKind::Trait | EntityKind::Interface => TypeMeaning::NoValue,
    }
}
