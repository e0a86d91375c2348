//! The methods of a core in groups of those that are alike.
ghost use Rattle.std.specs.Prelude.{◌≡◌, ◌↔◌, ◌+◌, ◌++◌, ◌∷◌, ◌<◌, [], IfOk, IfSome, IsTrue, OnOk, Some, get_or, length, slice_get, slice_set};
ghost use Rattle.std.specs.Option.{option_copied};
ghost use Rattle.pc_base.specs.Lists.{Has};
ghost use Rattle.pc_sub.specs.Groups as spec;

use crate::alike::is_alike;
use pc_base::List;
use pc_core::{Core, Method};
use std::alloc::{AllocError, Global};

/// The groups, by their numbers. For conformance the methods of a group are interchangeable.
#[derive(Debug, Drop)]
pub(crate) struct Groups {
    // The first method of each group.
    pub(crate) firsts: List<u32>,
    // The entities that have a method of the group.
    pub(crate) entities: List<List<u32>>,
    // The groups of the methods of each name.
    pub(crate) named: List<List<u32>>,
}

/// The first method of a group.
pub(crate) fn first_of<'c>(core: &'c Core, firsts: &[u32], group: u32) -> Option<&'c Method>
    ensures { option_copied result ≡ spec.first_of core.now firsts.now group }
{
    let first = firsts.get(group as usize)?;
    core.method_at(*first)
}

/// The list at this place, or past the last one the empty list.
pub(crate) fn list_at(lists: &List<List<u32>>, place: usize) -> &[u32]
    ensures { result.now ≡ get_or lists.now place [] }
{
    match lists.get(place) {
        None => &[],
        Some(list) => list.as_slice(),
    }
}

// Whether the methods of a group are alike to this one.
fn is_group_of(core: &Core, firsts: &[u32], group: u32, method: &Method) -> bool
    ensures { IsTrue result ↔ spec.IsGroupOf core.now firsts.now method.now group }
{
    match first_of(core, firsts, group) {
        None => false,
        Some(first) => is_alike(first, method),
    }
}

// One of these groups whose methods are alike to this one.
fn find_group(core: &Core, firsts: &[u32], among: &[u32], method: &Method) -> Option<u32>
    ensures { IfSome result (λ group. Has among.now group × spec.IsGroupOf core.now firsts.now method.now group) }
{
    for group in among {
        if is_group_of(core, firsts, *group, method) {
            return Some(*group);
        }
    }
    None
}

// Adds a number to the list at this place.
fn add_at(
    alloc: Global,
    lists: &mut List<List<u32>>,
    place: usize,
    number: u32,
) -> Result<(), AllocError>
    requires { place < length lists.old }
    ensures { OnOk result (lists.new ≡ slice_set lists.old place (get_or lists.old place [] ++ number ∷ [])) }
{
    let mut list = lists.replace(place, List::new(alloc));
    list.push(number)?;
    lists.replace(place, list);
    Ok(())
}

// Adds a method to a group of methods that are alike to it.
fn join_group(
    alloc: Global,
    core: &Core,
    groups: &mut Groups,
    group: u32,
    number: u32,
    method: &Method,
) -> Result<(), AllocError>
    requires grouped { spec.Grouped core.now number groups.old }
    requires there { slice_get core.now.methods number ≡ Some method.now }
    requires named { Has (get_or groups.old.named method.now.name []) group }
    requires alike { spec.IsGroupOf core.now groups.old.firsts method.now group }
    ensures { OnOk result (spec.Grouped core.now (number + 1) groups.new) }
{
    core.formed();
    add_at(alloc, &mut groups.entities, group as usize, method.entity)?;
    Ok(())
}

// Makes a group of a method.
fn begin_group(
    alloc: Global,
    core: &Core,
    groups: &mut Groups,
    number: u32,
    method: &Method,
) -> Result<(), AllocError>
    requires grouped { spec.Grouped core.now number groups.old }
    requires there { slice_get core.now.methods number ≡ Some method.now }
    ensures { OnOk result (spec.Grouped core.now (number + 1) groups.new) }
{
    core.formed();
    let group = groups.firsts.len() as u32;
    let mut entities = List::new(alloc);
    entities.push(method.entity)?;
    groups.firsts.push(number)?;
    groups.entities.push(entities)?;
    add_at(alloc, &mut groups.named, method.name as usize, group)?;
    Ok(())
}

// Puts the next method into its group.
fn add_method(
    alloc: Global,
    core: &Core,
    groups: &mut Groups,
    number: u32,
    method: &Method,
) -> Result<(), AllocError>
    requires grouped { spec.Grouped core.now number groups.old }
    requires there { slice_get core.now.methods number ≡ Some method.now }
    ensures { OnOk result (spec.Grouped core.now (number + 1) groups.new) }
{
    let among = list_at(&groups.named, method.name as usize);
    match find_group(core, groups.firsts.as_slice(), among, method) {
        Some(group) => join_group(alloc, core, groups, group, number, method),
        None => begin_group(alloc, core, groups, number, method),
    }
}

// No groups, with all names of the core.
fn no_groups(alloc: Global, core: &Core) -> Result<Groups, AllocError>
    ensures { IfOk result (spec.Grouped core.now 0) }
{
    let mut named = List::new(alloc);
    for _ in 0..core.names().len() {
        named.push(List::new(alloc))?;
    }
    Ok(Groups {
        firsts: List::new(alloc),
        entities: List::new(alloc),
        named,
    })
}

/// The methods of a core in groups.
pub(crate) fn group_methods(alloc: Global, core: &Core) -> Result<Groups, AllocError>
    ensures { IfOk result (spec.Grouped core.now (length core.now.methods)) }
{
    core.formed();
    let mut groups = no_groups(alloc, core)?;
    for number in 0..core.methods().len() {
        let method = &core.methods()[number];
        add_method(alloc, core, &mut groups, number as u32, method)?;
    }
    Ok(groups)
}
