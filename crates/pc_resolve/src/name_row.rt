//! A list of names, and whether a name is in it.
ghost use Rattle.std.specs.Prelude.{◌≡◌, [], IfOk, OnOk};
ghost use Rattle.pc_body_spec.specs.Bodies as spec;
ghost use Rattle.pc_members.specs.MemberLists.{with_names};

use crate::near::{far, near};
use pc_base::{List, ShortBytes};
use pc_keyed::KeyedBy;
use pc_members::NameTable;
use std::alloc::{AllocError, Global};
use std::marker::Model;

/// Names in order. For whether a name is among them, the first ones are looked through, and the others looked up by
/// hash.
#[derive(Drop)]
pub(crate) struct NameRow {
    row: List<ShortBytes>,
    names: NameTable,
}

impl Model for NameRow {
    ghost use Rattle.std.specs.Prelude.{◌≡◌, [], List as Sequence, ℕ, drop};
    ghost use Rattle.pc_members.specs.MemberLists.{with_names};
    ghost use Rattle.pc_resolve.specs.Near.{near_count};

    ghost Value = { Sequence (Sequence ℕ) };

    ghost view = { λ n. n.row };

    ghost invariant = { λ n. n.names ≡ with_names [] (drop near_count n.row) };
}

impl NameRow {
    /// These names, looked up by a hash with this key. `Err` if memory runs out.
    pub(crate) fn of(
        alloc: Global,
        key: KeyedBy,
        row: List<ShortBytes>,
    ) -> Result<NameRow, AllocError>
        ensures { IfOk result (λ names. names ≡ row) }
    {
        let names = table_of(alloc, key, far(row.as_slice()))?;
        Ok(NameRow { row, names })
    }

    /// Whether the name is one of these.
    pub(crate) fn has(&self, name: &[u8]) -> bool
        ensures { result ≡ spec.is_among_names self.now name.now }
    {
        is_among(near(self.row.as_slice()), name) || self.names.has(name)
    }
}

// Whether the name is one of these. All of them are looked at.
fn is_among(row: &[ShortBytes], name: &[u8]) -> bool
    ensures { result ≡ spec.is_among_names row.now name.now }
{
    for known in row {
        if known.as_slice() == name {
            return true;
        }
    }
    false
}

// The names, each once.
fn table_of(alloc: Global, key: KeyedBy, row: &[ShortBytes]) -> Result<NameTable, AllocError>
    ensures { IfOk result (λ names. names ≡ with_names [] row.now) }
{
    let mut names = NameTable::new(alloc, key);
    add_names(&mut names, row)?;
    Ok(names)
}

// Appends the names, each once.
fn add_names(names: &mut NameTable, row: &[ShortBytes]) -> Result<(), AllocError>
    ensures { OnOk result (names.new ≡ with_names names.old row.now) }
{
    for name in row {
        names.add(name.as_slice())?;
    }
    Ok(())
}
