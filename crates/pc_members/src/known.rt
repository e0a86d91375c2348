//! The names that are known while the methods of a trait or an interface are gathered.
ghost use Rattle.std.specs.Prelude.{◌≡◌, [], true, IsTrue, OnOk};
ghost use Rattle.pc_members.specs.Members.{member_text};
ghost use Rattle.pc_members.specs.MemberLists.{with_name, is_among};
ghost use Rattle.pc_members.specs.Views.{member_view};

use crate::member::Member;
use crate::table::NameTable;
use pc_base::List;
use std::alloc::{AllocError, Global};
use std::marker::Model;

/// A method of a trait or an interface, with the number of its name among the names of all such methods. The number
/// affects no answer, only how soon the name is found.
#[derive(Clone, Copy)]
pub(crate) struct Numbered<'a> {
    pub(crate) member: Member<'a>,
    pub(crate) number: u32,
}

/// Different names, in the order of their first appearance. A name that is there is found without a hash if it comes
/// with its number.
#[derive(Drop)]
pub(crate) struct Known {
    names: NameTable,
    // All names that have a number, by their numbers.
    numbered: NameTable,
    // For each number, the place among `names` at which its name was added last. It may not be there any more.
    places: List<u32>,
}

impl Model for Known {
    ghost use Rattle.std.specs.Prelude.{List as Sequence, ℕ};

    ghost Value = { Sequence (Sequence ℕ) };

    ghost view = { λ k. k.names };
}

impl Known {
    /// No names, with the key of this table. Does not allocate.
    pub(crate) fn new(alloc: Global, entities: &NameTable) -> Known
        ensures { result ≡ [] }
    {
        Known {
            names: entities.new_like(alloc),
            numbered: entities.new_like(alloc),
            places: List::new(alloc),
        }
    }

    /// Removes all names. Their numbers stay.
    pub(crate) fn clear(&mut self, alloc: Global)
        ensures { self.new ≡ [] }
    {
        self.names = self.names.new_like(alloc);
    }

    /// The number of the name, which is a new one if it has none.
    pub(crate) fn number(&mut self, name: &[u8]) -> Result<u32, AllocError>
        ensures { self.new ≡ self.old }
    {
        if let Some(number) = self.numbered.find(name) {
            return Ok(number);
        }
        let number = self.numbered.len();
        self.numbered.add(name)?;
        self.places.push(0)?;
        Ok(number)
    }

    // Whether the name is at the place at which the name with this number was added last.
    fn is_placed(&self, number: u32, name: &[u8]) -> bool
        ensures { IsTrue result → is_among name.now self.now ≡ true }
    {
        match self.places.get(number as usize) {
            Some(place) => self.names.is_at(*place, name),
            None => false,
        }
    }

    // Whether the name is there.
    fn has_name(&self, number: u32, name: &[u8]) -> bool
        ensures { result ≡ is_among name.now self.now }
    {
        self.is_placed(number, name) || self.names.has(name)
    }

    /// Whether the method's name is there. Does not allocate.
    pub(crate) fn has<'a>(&self, method: &Numbered<'a>) -> bool
        ensures { result ≡ is_among (member_text (member_view method.now.member)) self.now }
    {
        self.has_name(method.number, method.member.text())
    }

    // Notes the place at which the name with this number is added.
    fn note(&mut self, number: u32)
        ensures { self.new ≡ self.old }
    {
        if (number as usize) < self.places.len() {
            self.places.replace(number as usize, self.names.len());
        }
    }

    /// Appends the method's name, unless it is there already.
    pub(crate) fn add<'a>(&mut self, method: &Numbered<'a>) -> Result<(), AllocError>
        ensures { OnOk result (self.new ≡ with_name self.old (member_text (member_view method.now.member))) }
    {
        self.note(method.number);
        self.names.add(method.member.text())
    }
}
