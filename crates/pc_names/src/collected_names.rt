//! The collected names of a file.
ghost use Rattle.std.specs.Prelude.{◌≡◌, length, slice_get};
ghost use Rattle.std.specs.Option.{option_copied};
ghost use Rattle.pc_members.specs.Parts.{find_name};

use pc_base::List;
use pc_members::NameTable;
use std::marker::Model;

/// The names of a file: its entities by their numbers, the other texts, and which entities are above which.
///
/// The six built-in entities have the numbers 0 to 5, the file's entities those from 6 on, in order.
#[derive(Drop)]
pub struct Names {
    entities: NameTable,
    texts: NameTable,
    above: List<List<u32>>,
}

impl Model for Names {
    ghost use Rattle.pc_names.specs.Faults.{NamesData};

    ghost Value = { NamesData };

    ghost view = { λ n. record { entities = n.entities; texts = n.texts; above = n.above } };
}

impl Names {
    /// The collected names, from their three parts.
    pub(crate) fn of(entities: NameTable, texts: NameTable, above: List<List<u32>>) -> Names
        ensures { result ≡ record { entities = entities; texts = texts; above = above } }
    {
        Names {
            entities,
            texts,
            above,
        }
    }

    /// The number of the entity with this name. `None` iff there is none. Does not allocate.
    pub fn entity(&self, name: &[u8]) -> Option<u32>
        ensures { result ≡ find_name self.now.entities name.now }
    {
        self.entities.find(name)
    }

    /// The number of this text, which is not an entity's name. `None` iff it is not there. Does not allocate.
    pub fn text(&self, name: &[u8]) -> Option<u32>
        ensures { result ≡ find_name self.now.texts name.now }
    {
        self.texts.find(name)
    }

    /// The numbers of the entities to which a chain of `is` leads from the entity with this number, ascending. `None`
    /// iff no entity has the number.
    pub fn above(&self, entity: u32) -> Option<&[u32]>
        ensures { option_copied result ≡ slice_get self.now.above entity }
    {
        match self.above.get(entity as usize) {
            Some(above) => Some(above.as_slice()),
            None => None,
        }
    }

    /// The names of all entities, in the order of their numbers.
    pub fn entities(&self) -> &NameTable
        ensures { result.now ≡ self.now.entities }
    {
        &self.entities
    }

    /// For each entity, by its number, the numbers of those to which a chain of `is` leads from it, ascending.
    pub fn all_above(&self) -> &[List<u32>]
        ensures { result.now ≡ self.now.above }
    {
        self.above.as_slice()
    }

    /// How many entities there are, including the six built-in ones.
    pub fn entity_count(&self) -> u32
        ensures { result ≡ length self.now.entities }
    {
        self.entities.len()
    }

    /// How many other texts there are.
    pub fn text_count(&self) -> u32
        ensures { result ≡ length self.now.texts }
    {
        self.texts.len()
    }
}
