//! The core of a file.
ghost use Rattle.std.specs.Prelude.{◌≡◌, ◌<◌, ◌^◌, map, length, IfOk, IfErr};
ghost use Rattle.pc_tree.specs.View.{file_view};
ghost use Rattle.pc_core.specs.Formed.{Formed};
ghost use Rattle.pc_names.specs.Faults.{Collected};
ghost use Rattle.pc_file_spec.specs.Cores.{Stands, core_of, known_of, texts_of_file};
ghost use Rattle.pc_members.specs.MemberLists.{members};
ghost use Rattle.pc_members.specs.Views.{table_view};
ghost use Rattle.pc_elab.specs.Cores as spec;

use crate::entities::list_entities;
use crate::known::list_known;
use crate::members::add_entities;
use crate::parts::{Parts, built_in_parts};
use crate::texts::{list_texts, table_texts};
use pc_base::List;
use pc_core::{Core, EntityDef};
use pc_file_spec::cores_are_formed;
use pc_members::{Member, list_members};
use pc_names::{NameFault, Names};
use pc_resolve::{Context, LocalSlots};
use pc_sub::tabulate;
use pc_text_order::names_are_in_order;
use pc_tree::File;
use std::alloc::{AllocError, Global};

/// The parts of a core.
#[derive(Drop)]
pub(crate) struct Made {
    pub(crate) entities: List<EntityDef>,
    pub(crate) parts: Parts,
    pub(crate) names: List<List<u8>>,
}

// What the bodies of a file know of it: its entities and texts. The table has the members of its entities.
fn make_context(
    alloc: Global,
    file: &File,
    names: &Names,
    table: &[List<Member>],
) -> Result<Context, AllocError>
    requires collected { Collected (file_view file.now) names.now }
    requires members { table_view table.now ≡ map (members (file_view file.now).entities) (file_view file.now).entities }
    ensures entities { IfOk result (λ c. c.entities ≡ known_of (file_view file.now)) }
    ensures texts { IfOk result (λ c. c.texts ≡ texts_of_file (file_view file.now)) }
{
    let entities = list_known(alloc, file.entities.as_slice(), table)?;
    let texts = table_texts(alloc, names.entities(), file)?;
    Context::new(
        alloc,
        List::new(alloc),
        List::new(alloc),
        entities,
        texts,
        LocalSlots::new(alloc),
    )
}

// The members of each entity of a file whose names were collected.
fn members_of<'a>(
    alloc: Global,
    file: &'a File,
    names: &Names,
) -> Result<List<List<Member<'a>>>, AllocError>
    requires { Collected (file_view file.now) names.now }
    ensures { IfOk result (λ l. table_view l ≡ map (members (file_view file.now).entities) (file_view file.now).entities) }
{
    list_members(alloc, names.entities(), names.all_above(), file)
}

// The parts of a file's core, or the first fault of its members. The table has the members of its entities, and the
// context is what the bodies of the file know of it.
#[tactic(auto, using(crate::proofs::Wholes::few_own, crate::proofs::Wholes::as_many))]
fn make_parts(
    alloc: Global,
    file: &File,
    names: &Names,
    table: &[List<Member>],
    context: &mut Context,
) -> Result<Made, NameFault>
    requires collected { Collected (file_view file.now) names.now }
    requires members { table_view table.now ≡ map (members (file_view file.now).entities) (file_view file.now).entities }
    requires entities { context.old.entities ≡ known_of (file_view file.now) }
    requires texts { context.old.texts ≡ texts_of_file (file_view file.now) }
    ensures core { spec.Makes result (core_of names.now.above (file_view file.now)) }
    ensures few { IfOk result (λ m. length m.names < 2 ^ 32) }
{
    let mut parts = built_in_parts(alloc)?;
    let own = file.entities.as_slice();
    add_entities(alloc, context, &mut parts, own, table)?;
    let entities = list_entities(alloc, context, names, own, table)?;
    let names = list_texts(alloc, context.texts())?;
    Ok(Made {
        entities,
        parts,
        names,
    })
}

// The same without a context to begin with.
fn make_with(
    alloc: Global,
    file: &File,
    names: &Names,
    table: &[List<Member>],
) -> Result<Made, NameFault>
    requires collected { Collected (file_view file.now) names.now }
    requires members { table_view table.now ≡ map (members (file_view file.now).entities) (file_view file.now).entities }
    ensures core { spec.Makes result (core_of names.now.above (file_view file.now)) }
    ensures few { IfOk result (λ m. length m.names < 2 ^ 32) }
{
    let mut context = make_context(alloc, file, names, table)?;
    let made = make_parts(alloc, file, names, table, &mut context);
    drop(context);
    made
}

/// The parts of a file's core, or the first fault of its members.
pub(crate) fn make(alloc: Global, file: &File, names: &Names) -> Result<Made, NameFault>
    requires { Collected (file_view file.now) names.now }
    ensures core { spec.Makes result (core_of names.now.above (file_view file.now)) }
    ensures few { IfOk result (λ m. length m.names < 2 ^ 32) }
{
    let table = members_of(alloc, file, names)?;
    make_with(alloc, file, names, table.as_slice())
}

// The core with these parts, with its tables.
fn finish(alloc: Global, made: Made) -> Result<Core, AllocError>
    requires { Formed (spec.made_view made) }
    ensures { IfOk result (λ c. c ≡ spec.made_view made) }
{
    let Made {
        entities,
        parts,
        names,
    } = made;
    let Parts {
        methods,
        slots,
        nodes,
    } = parts;
    let mut core = Core::from_parts(entities, methods, slots, nodes, names);
    tabulate(alloc, &mut core).and(Ok(core))
}

/// The core of a file whose names were collected. `Err` iff a member of the file has a fault, and then the first fault
/// of the first such member: the first fault of its body in the order of the text, else its 65th slot, at the name of
/// the parameter or local that would have it, else, at the member's own name, that all members so far have more than
/// 200,000 nodes. Memory may run out at any time.
pub fn elaborate(alloc: Global, file: &File, names: &Names) -> Result<Core, NameFault>
    requires spelled { spec.IsSpelledFile (file_view file.now) }
    requires collected { Collected (file_view file.now) names.now }
    ensures core { IfOk result (λ c. Stands (file_view file.now) c) }
    ensures fault { IfErr result (spec.IsFirstFault (file_view file.now)) }
{
    cores_are_formed();
    names_are_in_order();
    let made = make(alloc, file, names)?;
    Ok(finish(alloc, made)?)
}
