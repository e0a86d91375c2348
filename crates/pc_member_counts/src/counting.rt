//! How many members each entity of a file has.
ghost use Rattle.std.specs.Prelude.{◌≡◌, ◌<◌, ◌≤◌, ◌+◌, ◌^◌, map, length, take, replicate, All, IfOk};
ghost use Rattle.pc_tree.specs.View.{entity_view, file_view};
ghost use Rattle.pc_members.specs.Members.{IsTransitiveClosure, entity_names};
ghost use Rattle.pc_members.specs.Founded.{IsFounded};
ghost use Rattle.pc_members.specs.MemberLists.{members};
ghost use Rattle.pc_member_counts.specs.Plans.{Plans};
ghost use Rattle.pc_member_counts.specs.Totals as spec;

use crate::fresh::add_fresh;
use crate::plan::{Plan, make_plan};
use crate::window::{WIDTH, list_blocks};
use pc_base::List;
use pc_members::{NameTable, has_added, own_part};
use pc_tree::{Entity, File};
use std::alloc::{AllocError, Global};

// Zero for each of `count` entities.
fn list_zeros(alloc: Global, count: usize) -> Result<List<usize>, AllocError>
    ensures { IfOk result (λ l. l ≡ replicate count 0) }
{
    let mut counts = List::new(alloc);
    while counts.len() < count {
        counts.push(0)?;
    }
    Ok(counts)
}

// The counts increased for the names from this number on, at most 64 of them.
fn count_window(
    alloc: Global,
    file: &File,
    plan: &Plan,
    counts: &[usize],
    start: u32,
) -> Result<List<usize>, AllocError>
    requires plans { Plans (file_view file.now) plan.now }
    requires start { start ≤ length plan.now.names }
    requires counts { counts.now ≡ map (spec.got (file_view file.now).entities (take start plan.now.names)) (file_view file.now).entities }
    ensures { IfOk result (λ l. l ≡ map (spec.got (file_view file.now).entities (take (start + 64) plan.now.names)) (file_view file.now).entities) }
{
    let all = file.entities.as_slice();
    let listings = plan.listings.as_slice();
    let table = list_blocks(alloc, start, all, listings, plan.order.as_slice())?;
    let count = (plan.names.len() - start).min(WIDTH);
    add_fresh(alloc, start, count, table.as_slice(), all, listings, counts)
}

// How many names each entity gets in addition to those written in it.
fn count_got(alloc: Global, file: &File, plan: &Plan) -> Result<List<usize>, AllocError>
    requires { Plans (file_view file.now) plan.now }
    ensures got { IfOk result (λ l. l ≡ map (spec.got (file_view file.now).entities plan.now.names) (file_view file.now).entities) }
    ensures few { IfOk result (λ l. All (λ c. c < 2 ^ 32) l) }
{
    let mut counts = list_zeros(alloc, file.entities.len())?;
    for window in 0..plan.names.len() / WIDTH + 1 {
        counts = count_window(alloc, file, plan, counts.as_slice(), window * WIDTH)?;
    }
    Ok(counts)
}

// How many members of a class, an actor or a primitive are written in it.
fn count_own(entity: &Entity) -> usize
    ensures count { result ≡ spec.own_count (entity_view entity.now) }
    ensures few { result < 2 ^ 63 }
{
    if entity.kind.is_abstract() {
        0
    } else {
        entity.methods.as_slice().len() + has_added(entity) as usize
    }
}

// These counts, increased by the members written in each entity.
fn add_own(alloc: Global, all: &[Entity], counts: &[usize]) -> Result<List<usize>, AllocError>
    requires counted { length counts.now ≡ length all.now }
    requires few { All (λ c. c < 2 ^ 32) counts.now }
    ensures { IfOk result (λ l. l ≡ spec.totals (map entity_view all.now) counts.now) }
{
    let mut sums = List::new(alloc);
    for place in 0..all.len() {
        let entity = &all[place];
        sums.push(count_own(entity) + counts[place])?;
    }
    Ok(sums)
}

/// How many members each entity of a file has, in order, given the names of all entities, the built-in ones first, and
/// for each the entities to which a chain of `is` leads. `Err` if memory runs out.
pub fn count_members(
    alloc: Global,
    entities: &NameTable,
    above: &[List<u32>],
    file: &File,
) -> Result<List<usize>, AllocError>
    requires names { entities.now ≡ entity_names (file_view file.now) }
    requires closes { IsTransitiveClosure (file_view file.now) above.now }
    requires founded { IsFounded (file_view file.now) }
    ensures { IfOk result (λ l. l ≡ map (λ e. length (members (file_view file.now).entities e)) (file_view file.now).entities) }
{
    let plan = make_plan(alloc, entities, own_part(above), file)?;
    let counts = count_got(alloc, file, &plan)?;
    add_own(alloc, file.entities.as_slice(), counts.as_slice())
}
