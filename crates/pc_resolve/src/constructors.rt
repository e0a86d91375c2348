//! The constructors of an entity, looked up by their names.
ghost use Rattle.std.specs.Prelude.{◌≡◌, [], IfOk, OnOk, map};
ghost use Rattle.std.specs.Str.{bytes_eq};
ghost use Rattle.pc_body_spec.specs.Bodies as spec;
ghost use Rattle.pc_body_spec.specs.Bodies.{create_name};
ghost use Rattle.pc_resolve.specs.Indexes.{firsts, with_firsts};
ghost use Rattle.pc_resolve.specs.Pairs.{constructor_pair};

use crate::index::Index;
use crate::near::{far, near};
use pc_base::{List, ShortBytes};
use pc_keyed::KeyedBy;
use std::alloc::{AllocError, Global};
use std::marker::Model;

/// A constructor of an entity.
#[derive(Drop)]
pub struct Constructor {
    name: ShortBytes,
    method: u32,
}

impl Model for Constructor {
    ghost use Rattle.pc_body_spec.specs.Bodies.{Constructor as Seen};

    ghost Value = { Seen };

    ghost view = { λ c. record { name = c.name; method = c.method } };
}

impl Constructor {
    /// The constructor with this name, which has this number among the methods of the program.
    pub fn new(name: ShortBytes, method: u32) -> Constructor
        ensures { result ≡ record { name = name; method = method } }
    {
        Constructor { name, method }
    }
}

/// The constructors of an entity in order. The first ones are looked through, and the others looked up by hash of their
/// names; `create` is looked up once for all its calls.
#[derive(Drop)]
pub struct Constructors {
    row: List<Constructor>,
    methods: Index,
    create: Option<u32>,
}

impl Model for Constructors {
    ghost use Rattle.std.specs.Prelude.{◌≡◌, List as Sequence, map, drop};
    ghost use Rattle.std.specs.Str.{bytes_eq};
    ghost use Rattle.pc_body_spec.specs.Bodies.{Constructor as Seen, constructor_named, create_name};
    ghost use Rattle.pc_resolve.specs.Indexes.{firsts};
    ghost use Rattle.pc_resolve.specs.Near.{near_count};
    ghost use Rattle.pc_resolve.specs.Pairs.{constructor_pair};

    ghost Value = { Sequence Seen };

    ghost view = { λ c. c.row };

    ghost invariant = { λ c. (c.methods ≡ firsts bytes_eq (map constructor_pair (drop near_count c.row))) × (c.create ≡ constructor_named c.row create_name) };
}

impl Constructors {
    /// No constructors. Does not allocate.
    #[tactic(auto, unfolding(crate::specs::Near::near_count))]
    pub fn new(alloc: Global) -> Constructors
        ensures { result ≡ [] }
    {
        Constructors {
            row: List::new(alloc),
            methods: Index::new(alloc, KeyedBy::nothing()),
            create: None,
        }
    }

    /// These constructors. `Err` if memory runs out.
    pub fn of(alloc: Global, row: List<Constructor>) -> Result<Constructors, AllocError>
        ensures { IfOk result (λ constructors. constructors ≡ row) }
    {
        let methods = number_methods(alloc, far(row.as_slice()))?;
        let create = method_named(row.as_slice(), b"create");
        Ok(Constructors {
            row,
            methods,
            create,
        })
    }

    /// The number of the constructor with this name among the methods of the program. `None` iff none of these has it;
    /// the first counts.
    pub fn find(&self, name: &[u8]) -> Option<u32>
        ensures { result ≡ spec.constructor_named self.now name.now }
    {
        match method_named(near(self.row.as_slice()), name) {
            Some(method) => Some(method),
            None => self.methods.find(name),
        }
    }

    /// The number of the constructor `create` among the methods of the program. `None` iff none of these has this name.
    pub fn create(&self) -> Option<u32>
        ensures { result ≡ spec.constructor_named self.now create_name }
    {
        self.create
    }
}

// The number of the constructor with this name among the methods. All of them are looked at.
fn method_named(row: &[Constructor], name: &[u8]) -> Option<u32>
    ensures { result ≡ spec.constructor_named row.now name.now }
{
    for constructor in row {
        if constructor.name.as_slice() == name {
            return Some(constructor.method);
        }
    }
    None
}

// The number of each constructor among the methods, by its name.
fn number_methods(alloc: Global, row: &[Constructor]) -> Result<Index, AllocError>
    ensures { IfOk result (λ methods. methods ≡ firsts bytes_eq (map constructor_pair row.now)) }
{
    let mut methods = Index::new(alloc, key_of(row));
    add_methods(&mut methods, row)?;
    Ok(methods)
}

// Appends those of these constructors whose names are not there already.
fn add_methods(methods: &mut Index, row: &[Constructor]) -> Result<(), AllocError>
    ensures { OnOk result (methods.new ≡ with_firsts bytes_eq methods.old (map constructor_pair row.now)) }
{
    for constructor in row {
        methods.add(constructor.name.as_slice(), constructor.method)?;
    }
    Ok(())
}

// The key made of the names of these constructors.
fn key_of(row: &[Constructor]) -> KeyedBy {
    let mut key = KeyedBy::nothing();
    for constructor in row {
        key.add(constructor.name.as_slice());
    }
    key
}
