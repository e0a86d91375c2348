//! An index of the methods by their entities and names.
ghost use Rattle.std.specs.Prelude.{◌≡◌, ◌<◌, ◌^◌, IfOk, MatchOption, length, map, position};
ghost use Rattle.pc_base.specs.Lists.{Differ};
ghost use Rattle.pc_core.specs.MethodKeys.{method_key, is_key};

use crate::declarations::Method;
use indexmap::IndexSet;
use pc_keyed::KeyedBy;
use std::alloc::{AllocError, Global};
use std::fmt;
use std::marker::Model;

/// The entities and names of methods, in the order of the methods.
#[derive(Drop)]
pub(crate) struct MethodIndex {
    keys: IndexSet<(u32, u32), KeyedBy>,
}

impl Model for MethodIndex {
    ghost use Rattle.std.specs.Prelude.{List as Sequence, ℕ, length, ◌<◌, ◌^◌};

    ghost Value = { Sequence (ℕ × ℕ) };

    ghost view = { λ i. i.keys.keys };

    ghost invariant = { λ i. length i.keys.keys < 2 ^ 32 };
}

impl fmt::Debug for MethodIndex {
    fn fmt<W: fmt::Write>(&self, formatter: &mut fmt::Formatter<W>) -> fmt::Result {
        formatter.write_str("MethodIndex")
    }
}

impl MethodIndex {
    /// The index of these methods. `None` iff two of them have the same entity and the same name, which no two methods
    /// of a core have.
    pub(crate) fn of(methods: &[Method], alloc: Global) -> Result<Option<MethodIndex>, AllocError>
        requires { length methods.now < 2 ^ 32 }
        ensures { IfOk result (λ index. MatchOption index (¬ (Differ (map method_key methods.now))) (λ keys. keys ≡ map method_key methods.now)) }
    {
        let mut keys = IndexSet::with_capacity_and_hasher(alloc, methods.len(), key_of(methods))?;
        for method in methods {
            let (_, added) = keys.insert_full((method.entity, method.name))?;
            if !added {
                return Ok(None);
            }
        }
        Ok(Some(MethodIndex { keys }))
    }

    /// The number of the method with this entity and name.
    pub(crate) fn number_of(&self, entity: u32, name: u32) -> Option<u32>
        ensures { result ≡ position (is_key entity name) self.now }
    {
        self.keys
            .get_index_of(&(entity, name))
            .map(|number| number as u32)
    }
}

// The key made of the entities and names of these methods.
fn key_of(methods: &[Method]) -> KeyedBy {
    let mut key = KeyedBy::nothing();
    for method in methods {
        key.add_number(method.entity);
        key.add_number(method.name);
    }
    key
}
