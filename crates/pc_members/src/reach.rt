//! What can be reached from each entity.
ghost use Rattle.std.specs.Prelude.{◌≡◌, ◌<◌, ◌+◌, [], ◌++◌, ◌^◌, false, length, true, OnOk, IfOk, replicate, slice_get, slice_set};
ghost use Rattle.pc_members.specs.Edges as spec;

use pc_base::List;
use std::alloc::{AllocError, Global};
use std::marker::Model;

/// Different numbers, in the order in which they were found.
#[derive(Drop)]
struct Found {
    numbers: List<u32>,
    // For each number below the length of this list, whether it is there.
    marks: List<bool>,
}

impl Model for Found {
    ghost use Rattle.std.specs.Prelude.{List as Sequence, ℕ};
    ghost use Rattle.pc_members.specs.Marks.{IsMarked};

    ghost Value = { Sequence ℕ };

    ghost view = { λ f. f.numbers };

    ghost invariant = { λ f. IsMarked f.numbers f.marks };
}

// A list without marks, with a place for each of `count` numbers.
fn list_unmarked(alloc: Global, count: usize) -> Result<List<bool>, AllocError>
    ensures { IfOk result (λ l. l ≡ replicate count false) }
{
    Ok(List::from_vec(vec![in alloc; false; count]?))
}

// Marks the number, if it has a place.
#[tactic(auto, using(crate::proofs::Marking::set_past))]
fn mark(marks: &mut List<bool>, number: u32)
    ensures { marks.new ≡ slice_set marks.old number true }
{
    if (number as usize) < marks.len() {
        marks.replace(number as usize, true);
    }
}

// Whether the number is one of these.
fn is_listed(numbers: &[u32], number: u32) -> bool
    ensures { result ≡ spec.has_number numbers.now number }
{
    numbers.contains(&number)
}

impl Found {
    // Nothing found. The numbers below `count` are looked up by their marks.
    #[tactic(auto, using(crate::proofs::Marking::none_marked))]
    fn new(alloc: Global, count: usize) -> Result<Found, AllocError>
        ensures { IfOk result (λ f. f ≡ []) }
    {
        let marks = list_unmarked(alloc, count)?;
        Ok(Found {
            numbers: List::new(alloc),
            marks,
        })
    }

    fn has(&self, number: u32) -> bool
        ensures { result ≡ spec.has_number self.now number }
    {
        match self.marks.get(number as usize) {
            Some(is_there) => *is_there,
            None => is_listed(self.numbers.as_slice(), number),
        }
    }

    // Appends the number, unless it is there already.
    #[tactic(auto, using(crate::proofs::Marking::push_marked, crate::proofs::Marking::added_known, crate::proofs::Marking::added_new))]
    fn add(&mut self, number: u32) -> Result<(), AllocError>
        ensures { OnOk result (self.new ≡ spec.added_last self.old number) }
    {
        if self.has(number) {
            return Ok(());
        }
        self.numbers.push(number)?;
        mark(&mut self.marks, number);
        Ok(())
    }

    fn add_all(&mut self, numbers: &[u32]) -> Result<(), AllocError>
        ensures { OnOk result (self.new ≡ spec.add_all self.old numbers.now) }
    {
        for number in numbers {
            self.add(*number)?;
        }
        Ok(())
    }

    // Adds the targets of this number's edges.
    fn add_next(&mut self, edges: &[List<u32>], from: usize) -> Result<(), AllocError>
        ensures { OnOk result (self.new ≡ spec.add_all self.old (spec.edges_from edges.now from)) }
    {
        match edges.get(from) {
            Some(numbers) => self.add_all(numbers.as_slice()),
            None => Ok(()),
        }
    }

    fn get(&self, at: usize) -> Option<u32>
        ensures { result ≡ slice_get self.now at }
    {
        self.numbers.get(at).copied()
    }
}

// From the number found at each place on, adds the targets of its edges.
#[tactic(auto, using(crate::proofs::Reaches::one_turn))]
fn grow(found: &mut Found, edges: &[List<u32>]) -> Result<(), AllocError>
    requires { length edges.now < 2 ^ 32 }
    ensures { OnOk result (found.new ≡ spec.grow (length edges.now + 1) edges.now found.old 0) }
{
    for at in 0..edges.len() + 1 {
        let Some(number) = found.get(at) else {
            return Ok(());
        };
        found.add_next(edges, number as usize)?;
    }
    Ok(())
}

// Finds what can be reached from this number, starting with nothing found.
fn find(found: &mut Found, edges: &[List<u32>], from: usize) -> Result<(), AllocError>
    requires few { length edges.now < 2 ^ 32 }
    requires none { found.old ≡ [] }
    ensures { OnOk result (found.new ≡ spec.reached edges.now from) }
{
    found.add_next(edges, from)?;
    grow(found, edges)
}

// The numbers below a bound that were found, in ascending order.
#[tactic(auto, using(crate::proofs::Reaches::ascend_turn))]
fn sort_found(alloc: Global, found: &Found, count: u32) -> Result<List<u32>, AllocError>
    ensures { IfOk result (λ l. l ≡ spec.ascending found.now 0 count) }
{
    let mut ascending = List::new(alloc);
    for number in 0..count {
        if found.has(number) {
            ascending.push(number)?;
        }
    }
    Ok(ascending)
}

// What can be reached from this number, in ascending order.
fn reach(alloc: Global, edges: &[List<u32>], from: usize) -> Result<List<u32>, AllocError>
    requires { length edges.now < 2 ^ 32 }
    ensures { IfOk result (λ l. l ≡ spec.ascending (spec.reached edges.now from) 0 (length edges.now)) }
{
    let mut found = Found::new(alloc, edges.len())?;
    find(&mut found, edges, from)?;
    sort_found(alloc, &found, edges.len() as u32)
}

// Appends, for each number, what can be reached from it.
#[tactic(auto, using(crate::proofs::Reaches::above_turn))]
fn add_reached(
    alloc: Global,
    lists: &mut List<List<u32>>,
    edges: &[List<u32>],
) -> Result<(), AllocError>
    requires { length edges.now < 2 ^ 32 }
    ensures { OnOk result (lists.new ≡ lists.old ++ spec.above_all edges.now) }
{
    for from in 0..edges.len() {
        lists.push(reach(alloc, edges, from)?)?;
    }
    Ok(())
}

/// For each number, what can be reached from it along the edges, in ascending order.
pub fn close(alloc: Global, edges: &[List<u32>]) -> Result<List<List<u32>>, AllocError>
    requires { length edges.now < 2 ^ 32 }
    ensures { IfOk result (λ l. l ≡ spec.above_all edges.now) }
{
    let mut lists = List::new(alloc);
    add_reached(alloc, &mut lists, edges).and(Ok(lists))
}
