//! Fields and methods by their names.
ghost use Rattle.pc_core.specs.Parts as parts;
ghost use Rattle.std.specs.Prelude.{◌≡◌, ℕ, ◌+◌, ◌<◌, ◌≤◌, ◌^◌, length, MatchOption, slice_range};
ghost use Rattle.pc_base.specs.Limits.{field_limit};
ghost use Rattle.pc_core.specs.CoreData as spec;
ghost use Rattle.pc_base.specs.Lists.{place_of};

use crate::cores::Core;
use crate::declarations::{FieldInfo, Method};

impl Core {
    /// The index of the entity's field with this name. `None` iff there is no such entity or it has no such field. Does
    /// not allocate.
    pub fn field(&self, entity: u32, name: u32) -> Option<u32>
        ensures value { result ≡ spec.field_named self.now entity name }
        ensures exact { MatchOption result ((i : ℕ) → ¬ (parts.IsField self.now entity name i)) (λ i. parts.IsField self.now entity name i) }
    {
        self.formed();
        let found = self.entity_at(entity)?;
        place_of_field(found.fields.as_slice(), name)
    }

    /// The number of the entity's method with this name. `None` iff there is no such entity or it has no such method.
    /// Does not allocate. Once `index_methods` has made an index, this is one look-up in a hash table, in a time that
    /// does not grow with the number of methods.
    pub fn method(&self, entity: u32, name: u32) -> Option<u32>
        ensures value { result ≡ spec.method_named self.now entity name }
        ensures exact { MatchOption result ((m : ℕ) → ¬ (spec.IsMethod self.now entity name m)) (λ m. spec.IsMethod self.now entity name m) }
    {
        self.formed();
        match &self.index {
            Some(index) => index.number_of(entity, name),
            None => self.method_among(entity, name),
        }
    }

    // The number of the entity's method with this name, found by searching the entity's methods.
    fn method_among(&self, entity: u32, name: u32) -> Option<u32>
        ensures { result ≡ spec.method_named self.now entity name }
    {
        self.formed();
        let found = self.entity_at(entity)?;
        let methods = part(self.methods(), found.first_method, found.methods);
        place_of_method(methods, name, found.first_method)
    }
}

// `count` methods, from this number on.
fn part(methods: &[Method], first: u32, count: u32) -> &[Method]
    requires { first + count ≤ length methods.now }
    ensures { result.now ≡ slice_range methods.now first (first + count) }
{
    &methods[first as usize..first as usize + count as usize]
}

// The index of the first field with this name.
fn place_of_field(fields: &[FieldInfo], name: u32) -> Option<u32>
    requires { length fields.now ≤ field_limit }
    ensures { result ≡ place_of parts.field_name name fields.now 0 }
{
    let mut at = 0;
    for field in fields {
        if field.name == name {
            return Some(at);
        }
        at += 1;
    }
    None
}

// The number of the first method with this name, numbering them from `first` on.
fn place_of_method(methods: &[Method], name: u32, first: u32) -> Option<u32>
    requires { first + length methods.now < 2 ^ 32 }
    ensures { result ≡ place_of parts.method_name name methods.now first }
{
    let mut at = first;
    for method in methods {
        if method.name == name {
            return Some(at);
        }
        at += 1;
    }
    None
}
