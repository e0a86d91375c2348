//! The texts of a file.
ghost use Rattle.std.specs.Prelude.{◌≡◌, ◌<◌, [], ◌^◌, length, IfOk, OnOk};
ghost use Rattle.pc_tree.specs.View.{file_view};
ghost use Rattle.pc_file_spec.specs.Cores.{texts_of_file};

use pc_base::List;
use pc_body_walks::add_texts;
use pc_members::NameTable;
use pc_names::add_member_texts;
use pc_tree::File;
use std::alloc::{AllocError, Global};

// Adds the texts of a file to an empty table.
fn add_all(table: &mut NameTable, file: &File) -> Result<(), AllocError>
    requires { table.old ≡ [] }
    ensures { OnOk result (table.new ≡ texts_of_file (file_view file.now)) }
{
    table.add(b"out")?;
    table.add(b"print")?;
    table.add(b"create")?;
    table.add(b"apply")?;
    add_member_texts(table, file.entities.as_slice())?;
    add_texts(table, file.entities.as_slice())
}

/// The texts of a file, each once: the built-in ones, then the names of the fields and methods, and then the names
/// after a `.`. The key is that of the table of all entities.
pub(crate) fn table_texts(
    alloc: Global,
    entities: &NameTable,
    file: &File,
) -> Result<NameTable, AllocError>
    ensures { IfOk result (λ t. t ≡ texts_of_file (file_view file.now)) }
{
    let mut table = entities.new_like(alloc);
    add_all(&mut table, file).and(Ok(table))
}

/// The texts of a table by their numbers.
#[tactic(auto, using(crate::proofs::Items::get_some, crate::proofs::Items::get_none))]
pub(crate) fn list_texts(alloc: Global, table: &NameTable) -> Result<List<List<u8>>, AllocError>
    ensures texts { IfOk result (λ l. l ≡ table.now) }
    ensures few { IfOk result (λ l. length l < 2 ^ 32) }
{
    let mut texts = List::new(alloc);
    for number in 0..table.len() {
        match table.get(number) {
            Some(text) => texts.push(List::from_slice(alloc, text)?)?,
            None => {}
        }
    }
    Ok(texts)
}
