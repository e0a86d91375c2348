//! How many of 64 names each entity gets in addition to those written in it.
ghost use Rattle.std.specs.Prelude.{◌≡◌, ◌<◌, ◌^◌, [], map, length, All, IfOk};
ghost use Rattle.pc_tree.specs.View.{entity_view};
ghost use Rattle.pc_masks.specs.Masks.{empty};
ghost use Rattle.pc_member_counts.specs.Fresh as spec;
ghost use Rattle.pc_member_counts.specs.Windows as windows;

use crate::block::Block;
use crate::listing::Listing;
use crate::window::{block_at, is_within};
use pc_base::List;
use pc_masks::Mask;
use pc_tree::{Entity, EntityKind};
use std::alloc::{AllocError, Global};

// The set without the number, counted from `start`.
fn without_one(start: u32, set: Mask, number: u32) -> Mask
    ensures { result ≡ spec.without_one start set number }
{
    if is_within(start, number) {
        set.without(number - start)
    } else {
        set
    }
}

// The set without these numbers, counted from `start`.
fn without_all(start: u32, set: Mask, numbers: &[u32]) -> Mask
    ensures { result ≡ spec.without_all start set numbers.now }
{
    let mut rest = set;
    for number in numbers {
        rest = without_one(start, rest, *number);
    }
    rest
}

// The names that an entity of this kind takes over from one of these, if they are new to it.
fn taken_from(kind: EntityKind, table: &[Block], targets: &[u32]) -> Mask
    ensures { result ≡ spec.taken_from kind table.now empty targets.now }
{
    let mut set = Mask(0);
    for number in targets {
        set = set.join(block_at(table, *number).takable(kind));
    }
    set
}

// How many of the first names a trait or an interface has, if this is its block.
fn count_present(block: Block, count: u32) -> u32
    ensures { result ≡ spec.count_present block count }
{
    count.saturating_sub(block.absent.meet(Mask::first(count)).0.count_ones())
}

// How many of the first names a class, an actor or a primitive takes over.
fn count_taken(start: u32, count: u32, table: &[Block], kind: EntityKind, listing: &Listing) -> u32
    ensures { result ≡ spec.count_taken start count table.now kind listing.now }
{
    let new = without_all(start, Mask::first(count), listing.methods.as_slice());
    let free = without_all(start, new, listing.others.as_slice());
    let taken = taken_from(kind, table, listing.targets.as_slice());
    free.meet(taken).0.count_ones()
}

// The block at this place of the table.
fn own_place(table: &[Block], place: usize) -> Block
    ensures { result ≡ windows.own_place table.now place }
{
    match table.get(place) {
        Some(block) => *block,
        None => Block::nothing(),
    }
}

// How many of the names the entity at this place gets.
fn count_fresh(
    start: u32,
    count: u32,
    table: &[Block],
    place: usize,
    entity: &Entity,
    listing: &Listing,
) -> u32
    ensures { result ≡ spec.count_fresh start count table.now place (entity_view entity.now) listing.now }
{
    if entity.kind.is_abstract() {
        count_present(own_place(table, place), count)
    } else {
        count_taken(start, count, table, entity.kind, listing)
    }
}

/// The counts of these entities, increased for `count` more names from this number on.
pub(crate) fn add_fresh(
    alloc: Global,
    start: u32,
    count: u32,
    table: &[Block],
    all: &[Entity],
    listings: &[Listing],
    counts: &[usize],
) -> Result<List<usize>, AllocError>
    requires listed { length listings.now ≡ length all.now }
    requires counted { length counts.now ≡ length all.now }
    requires few { All (λ c. c < 2 ^ 32) counts.now }
    ensures { IfOk result (λ l. l ≡ spec.with_fresh start count table.now 0 (map entity_view all.now) listings.now counts.now) }
{
    let mut sums = List::new(alloc);
    for place in 0..all.len() {
        let entity = &all[place];
        let listing = &listings[place];
        let fresh = count_fresh(start, count, table, place, entity, listing);
        sums.push(counts[place] + fresh as usize)?;
    }
    Ok(sums)
}
