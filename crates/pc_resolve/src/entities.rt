//! What a body knows of the entities of the program, looked up by their names.
ghost use Rattle.std.specs.Prelude.{◌≡◌, ◌<◌, ◌^◌, Some, IfOk, OnOk, length};
ghost use Rattle.std.specs.Option.{option_map};
ghost use Rattle.std.specs.Str.{bytes_eq};
ghost use Rattle.pc_resolve.specs.Indexes.{firsts, with_firsts};
ghost use Rattle.pc_resolve.specs.Pairs.{known_at, known_pairs, picked};

use crate::constructors::Constructors;
use crate::index::Index;
use pc_base::{List, ShortBytes};
use pc_caps::Cap;
use pc_keyed::KeyedBy;
use pc_tree::EntityKind;
use std::alloc::{AllocError, Global};
use std::marker::Model;

/// What a body knows of an entity of the program.
#[derive(Drop)]
pub struct Known {
    pub(crate) name: ShortBytes,
    pub(crate) kind: EntityKind,
    pub(crate) cap: Cap,
    pub(crate) constructors: Constructors,
}

impl Model for Known {
    ghost use Rattle.pc_body_spec.specs.Bodies.{KnownEntity as Seen};

    ghost Value = { Seen };

    ghost view = { λ k. record { name = k.name; kind = k.kind; cap = k.cap; constructors = k.constructors } };
}

impl Known {
    /// An entity with this name and kind, whose type has this capability if none is written. A constructor that is
    /// added because none is written is among the constructors.
    pub fn new(name: ShortBytes, kind: EntityKind, cap: Cap, constructors: Constructors) -> Known
        ensures { result ≡ record { name = name; kind = kind; cap = cap; constructors = constructors } }
    {
        Known {
            name,
            kind,
            cap,
            constructors,
        }
    }
}

/// The entities of a program by their numbers, looked up by hash of their names.
#[derive(Drop)]
pub(crate) struct Entities {
    row: List<Known>,
    numbers: Index,
}

impl Model for Entities {
    ghost use Rattle.std.specs.Prelude.{◌≡◌, List as Sequence};
    ghost use Rattle.std.specs.Str.{bytes_eq};
    ghost use Rattle.pc_body_spec.specs.Bodies.{KnownEntity as Seen};
    ghost use Rattle.pc_resolve.specs.Indexes.{firsts};
    ghost use Rattle.pc_resolve.specs.Pairs.{known_pairs};

    ghost Value = { Sequence Seen };

    ghost view = { λ e. e.row };

    ghost invariant = { λ e. e.numbers ≡ firsts bytes_eq (known_pairs 0 e.row) };
}

impl Entities {
    /// These entities, looked up by a hash with this key. `Err` if memory runs out.
    pub(crate) fn of(alloc: Global, key: KeyedBy, row: List<Known>) -> Result<Entities, AllocError>
        requires { length row < 2 ^ 32 }
        ensures { IfOk result (λ entities. entities ≡ row) }
    {
        let numbers = number_entities(alloc, key, row.as_slice())?;
        Ok(Entities { row, numbers })
    }

    /// The entity with this name, and its number. `None` iff there is none; the first counts.
    #[tactic(auto, using(crate::proofs::Found::entity_found))]
    pub(crate) fn find(&self, name: &[u8]) -> Option<(u32, &Known)>
        ensures { option_map (λ p. (p.0, p.1.now)) result ≡ known_at 0 self.now name.now }
    {
        match self.numbers.find(name) {
            Some(number) => self.numbered(number),
            None => None,
        }
    }

    // The entity with this number, and the number.
    fn numbered(&self, number: u32) -> Option<(u32, &Known)>
        ensures { option_map (λ p. (p.0, p.1.now)) result ≡ picked self.now (Some number) }
    {
        match self.row.get(number as usize) {
            Some(known) => Some((number, known)),
            None => None,
        }
    }
}

// The number of each entity, by its name.
fn number_entities(alloc: Global, key: KeyedBy, row: &[Known]) -> Result<Index, AllocError>
    requires { length row.now < 2 ^ 32 }
    ensures { IfOk result (λ numbers. numbers ≡ firsts bytes_eq (known_pairs 0 row.now)) }
{
    let mut numbers = Index::new(alloc, key);
    add_numbers(&mut numbers, row)?;
    Ok(numbers)
}

// Appends those of these entities whose names are not there already.
fn add_numbers(numbers: &mut Index, row: &[Known]) -> Result<(), AllocError>
    requires { length row.now < 2 ^ 32 }
    ensures { OnOk result (numbers.new ≡ with_firsts bytes_eq numbers.old (known_pairs 0 row.now)) }
{
    for at in 0..row.len() {
        let known = &row[at];
        numbers.add(known.name.as_slice(), at as u32)?;
    }
    Ok(())
}
