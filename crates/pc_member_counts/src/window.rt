//! The blocks of all traits and interfaces for 64 names, from one number on.
ghost use Rattle.std.specs.Prelude.{◌≡◌, map, length, replicate, slice_set, IfOk};
ghost use Rattle.pc_tree.specs.View.{entity_view, method_view};
ghost use Rattle.pc_member_counts.specs.Blocks.{nothing};
ghost use Rattle.pc_member_counts.specs.Windows as spec;

use crate::block::Block;
use crate::listing::Listing;
use pc_base::List;
use pc_tree::{Entity, FIRST_OWN, MethodDef};
use std::alloc::{AllocError, Global};

/// How many names a block describes.
pub(crate) const WIDTH: u32 = 64;

/// Whether the number is one of the 64 from this one on.
pub(crate) fn is_within(start: u32, number: u32) -> bool
    ensures { result ≡ spec.is_within start number }
{
    start <= number && number - start < WIDTH
}

// The block followed by the method whose name has this number.
fn with_own(start: u32, block: Block, number: u32, method: &MethodDef) -> Block
    ensures { result ≡ spec.with_own start block number (method_view method.now) }
{
    if is_within(start, number) {
        block.followed(Block::single(number - start, method))
    } else {
        block
    }
}

// The block of these methods, whose names have these numbers.
fn own_block(start: u32, numbers: &[u32], methods: &[MethodDef]) -> Block
    requires { length numbers.now ≡ length methods.now }
    ensures { result ≡ spec.own_block start nothing numbers.now (map method_view methods.now) }
{
    let mut block = Block::nothing();
    for at in 0..methods.len() {
        let method = &methods[at];
        block = with_own(start, block, numbers[at], method);
    }
    block
}

/// What the table has for the entity with this number.
pub(crate) fn block_at(table: &[Block], number: u32) -> Block
    ensures { result ≡ spec.block_at table.now number }
{
    match table.get((number as usize).saturating_sub(FIRST_OWN as usize)) {
        Some(block) => *block,
        None => Block::nothing(),
    }
}

// The block of its own methods followed by the methods of these entities.
fn with_named(table: &[Block], own: Block, targets: &[u32]) -> Block
    ensures { result ≡ spec.with_named table.now own targets.now }
{
    let mut block = own;
    for number in targets {
        block = block.followed(block_at(table, *number));
    }
    block
}

// The block of a trait or an interface.
fn trait_block(start: u32, table: &[Block], entity: &Entity, listing: &Listing) -> Block
    requires { length listing.now.methods ≡ length entity.now.methods }
    ensures { result ≡ spec.trait_block start table.now (entity_view entity.now) listing.now }
{
    let own = own_block(start, listing.methods.as_slice(), entity.methods.as_slice());
    with_named(table, own, listing.targets.as_slice())
}

// Puts a block at a place of the table, if the table has that place.
#[tactic(auto, using(crate::proofs::Sets::set_past))]
fn put(table: &mut List<Block>, place: usize, block: Block)
    ensures { table.new ≡ slice_set table.old place block }
{
    if place < table.len() {
        table.replace(place, block);
    }
}

// An empty block for each of `count` entities.
fn list_nothing(alloc: Global, count: usize) -> Result<List<Block>, AllocError>
    ensures { IfOk result (λ l. l ≡ replicate count nothing) }
{
    let mut table = List::new(alloc);
    while table.len() < count {
        table.push(Block::nothing())?;
    }
    Ok(table)
}

// If there is an entity at this place, puts its block into the table.
fn fill_place(
    start: u32,
    all: &[Entity],
    listings: &[Listing],
    table: &mut List<Block>,
    place: usize,
)
    requires { spec.ArePaired (map entity_view all.now) listings.now }
    ensures { table.new ≡ spec.filled_at start (map entity_view all.now) listings.now table.old place }
{
    let Some(entity) = all.get(place) else {
        return;
    };
    let Some(listing) = listings.get(place) else {
        return;
    };
    let block = trait_block(start, table.as_slice(), entity, listing);
    put(table, place, block);
}

/// The blocks of the traits and interfaces at these places, each after those that it names, for the 64 names from this
/// number on.
pub(crate) fn list_blocks(
    alloc: Global,
    start: u32,
    all: &[Entity],
    listings: &[Listing],
    order: &[usize],
) -> Result<List<Block>, AllocError>
    requires { spec.ArePaired (map entity_view all.now) listings.now }
    ensures { IfOk result (λ l. l ≡ spec.filled start (map entity_view all.now) listings.now order.now (replicate (length all.now) nothing)) }
{
    let mut table = list_nothing(alloc, all.len())?;
    for place in order {
        fill_place(start, all, listings, &mut table, *place);
    }
    Ok(table)
}
