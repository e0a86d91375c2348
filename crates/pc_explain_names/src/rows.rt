//! The members of a file's entities, and their names in words.
ghost use Rattle.std.specs.Prelude.{◌≡◌, ◌++◌, map, true, IfOk, OnOk};
ghost use Rattle.std.specs.Option.{option_map};
ghost use Rattle.pc_explain_names.specs.Homes.{last_of_first};
ghost use Rattle.pc_explain_names.specs.Rows as spec;
ghost use Rattle.pc_members.specs.MemberLists.{members};
ghost use Rattle.pc_members.specs.Views.{member_view, members_view, table_view};
ghost use Rattle.pc_names.specs.Faults.{IsNotMemory, Collected};
ghost use Rattle.pc_tree.specs.View.{file_view};

use crate::lists::{MOST, between, push_rest};
use pc_base::List;
use pc_explain_window::{push_bytes, push_quoted};
use pc_members::{Member, list_members};
use pc_names::{NameFault, Names, collect};
use pc_tree::File;
use std::alloc::{AllocError, Global};

// The members of each entity of a file whose names were collected.
fn members_of<'a>(
    alloc: Global,
    file: &'a File,
    names: &Names,
) -> Result<List<List<Member<'a>>>, AllocError>
    requires { Collected (file_view file.now) names.now }
    ensures { IfOk result (λ l. table_view l ≡ map (members (file_view file.now).entities) (file_view file.now).entities) }
{
    list_members(alloc, names.entities(), names.all_above(), file)
}

// An `Err` if memory ran out.
fn unless_memory(fault: NameFault) -> Result<(), AllocError>
    ensures { OnOk result (IsNotMemory fault) }
{
    match fault {
        NameFault::Memory => Err(AllocError),
        NameFault::Double(_)
        | NameFault::Unknown(_)
        | NameFault::NoMain
        | NameFault::BadMain(_)
        | NameFault::Cycle(_)
        | NameFault::TooMany(_, _) => Ok(()),
    }
}

/// The members of each entity of a file. There are none if the names of the file have a fault.
pub(crate) fn list_rows<'a>(
    alloc: Global,
    file: &'a File,
) -> Result<List<List<Member<'a>>>, AllocError>
    ensures { IfOk result (λ l. table_view l ≡ spec.rows (file_view file.now)) }
{
    match collect(alloc, file) {
        Ok(names) => members_of(alloc, file, &names),
        Err(fault) => {
            unless_memory(fault)?;
            Ok(List::new(alloc))
        }
    }
}

/// The last of the first `count` rows.
pub(crate) fn last_row<'t, 'a>(
    rows: &'t List<List<Member<'a>>>,
    count: usize,
) -> Option<&'t List<Member<'a>>>
    ensures { option_map (λ r. members_view r.now) result ≡ last_of_first count (table_view rows.now) }
{
    if count == 0 {
        None
    } else {
        rows.get(count - 1)
    }
}

/// Whether one of the members has this name.
#[tactic(auto, unfolding(crate::specs::Rows::has_member))]
pub(crate) fn has_member(name: &[u8], members: &[Member]) -> bool
    ensures { result ≡ spec.has_member name.now (members_view members.now) }
{
    for member in members {
        if member.text() == name {
            return true;
        }
    }
    false
}

// Appends the member's name, after a comma unless it is the first.
fn push_one_member(
    alloc: Global,
    out: &mut Vec<u8>,
    first: bool,
    member: Member,
) -> Result<(), AllocError>
    ensures { OnOk result (out.new.items ≡ out.old.items ++ spec.one_member first (member_view member.entry)) }
{
    push_bytes(out, between(first))?;
    push_quoted(alloc, out, member.text())
}

// Appends the members' names between backquotes, with a comma between any two.
fn push_listed_members(
    alloc: Global,
    out: &mut Vec<u8>,
    members: &[Member],
) -> Result<(), AllocError>
    ensures { OnOk result (out.new.items ≡ out.old.items ++ spec.listed_members true (members_view members.now)) }
{
    let mut first = true;
    'members: for member in members {
        push_one_member(alloc, out, first, *member)?;
        first = false;
    }
    Ok(())
}

/// Appends the members' names between backquotes, the first eight and how many more there are; or `none`.
#[tactic(auto, unfolding(crate::specs::Rows::member_names))]
pub(crate) fn push_member_names(
    alloc: Global,
    out: &mut Vec<u8>,
    members: &[Member],
) -> Result<(), AllocError>
    ensures { OnOk result (out.new.items ≡ out.old.items ++ spec.member_names (members_view members.now)) }
{
    match members {
        [] => push_bytes(out, b"none"),
        [_, ..] => {
            push_listed_members(alloc, out, &members[..MOST.min(members.len())])?;
            push_rest(alloc, out, members.len())
        }
    }
}
