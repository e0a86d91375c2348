//! The names of a file's methods, and the numbers of names among them.
ghost use Rattle.std.specs.Prelude.{◌≡◌, ◌++◌, [], map, IfOk};
ghost use Rattle.pc_tree.specs.View.{entity_view, field_view, method_view};
ghost use Rattle.pc_members.specs.Members.{field_texts, method_texts};
ghost use Rattle.pc_member_counts.specs.Numbers as spec;

use pc_base::List;
use pc_members::{NameTable, add_methods};
use pc_tree::{Entity, FieldDef, MethodDef};
use std::alloc::{AllocError, Global};

/// The names of all methods written in these entities, each once. The key is that of the table of all entities.
pub(crate) fn table_names(
    alloc: Global,
    entities: &NameTable,
    all: &[Entity],
) -> Result<NameTable, AllocError>
    ensures { IfOk result (λ n. n ≡ spec.method_names [] (map entity_view all.now)) }
{
    let mut names = entities.new_like(alloc);
    for entity in all {
        add_methods(&mut names, entity.methods.as_slice())?;
    }
    Ok(names)
}

/// The number of a name, or the number of names if it is none of them.
pub(crate) fn number_in(names: &NameTable, text: &[u8]) -> u32
    ensures { result ≡ spec.number_in names.now text.now }
{
    match names.find(text) {
        Some(number) => number,
        None => names.len(),
    }
}

/// The numbers of the names of these methods.
pub(crate) fn number_methods(
    alloc: Global,
    names: &NameTable,
    methods: &[MethodDef],
) -> Result<List<u32>, AllocError>
    ensures { IfOk result (λ l. l ≡ spec.numbers_in names.now (method_texts (map method_view methods.now))) }
{
    let mut numbers = List::new(alloc);
    for method in methods {
        numbers.push(number_in(names, method.name.text.as_slice()))?;
    }
    Ok(numbers)
}

/// The numbers of the names of these fields.
pub(crate) fn number_fields(
    alloc: Global,
    names: &NameTable,
    fields: &[FieldDef],
) -> Result<List<u32>, AllocError>
    ensures { IfOk result (λ l. l ≡ spec.numbers_in names.now (field_texts (map field_view fields.now))) }
{
    let mut numbers = List::new(alloc);
    for field in fields {
        numbers.push(number_in(names, field.name.text.as_slice()))?;
    }
    Ok(numbers)
}
