//! The children of a node.
ghost use Rattle.std.specs.Prelude.{◌≡◌, ◌∷◌, [], length, IfOk, IfSome};
ghost use Rattle.pc_core.specs.Children.{numbers_of};

use pc_base::List;
use std::alloc::{AllocError, Global};
use std::marker::Model;
use std::rc::Rc;

/// The children of a node, by their numbers, in order. It never changes. Up to two are in the value itself; more are
/// kept in memory once for all its owners. Contracts see the sequence and nothing else.
#[derive(Debug, Drop)]
pub struct Children {
    row: Row,
}

// Where the numbers are.
#[derive(Debug, Drop)]
enum Row {
    None,
    One([u32; 1]),
    Two([u32; 2]),
    // Not a `SharedList`, which has a tag of its own and would make every row larger.
    Many(Rc<List<u32>>),
}

impl Model for Children {
    ghost use Rattle.std.specs.Prelude.{List as Sequence, ℕ};
    ghost use Rattle.pc_core.specs.Children.{numbers_of};

    ghost Value = { Sequence ℕ };

    ghost view = { λ children. numbers_of children.row };
}

impl Children {
    /// No children.
    pub fn none() -> Children
        ensures { result ≡ [] }
    {
        Children { row: Row::None }
    }

    /// One child.
    pub fn one(child: u32) -> Children
        ensures { result ≡ child ∷ [] }
    {
        Children {
            row: Row::One([child]),
        }
    }

    /// Two children.
    pub fn two(first: u32, second: u32) -> Children
        ensures { result ≡ first ∷ second ∷ [] }
    {
        Children {
            row: Row::Two([first, second]),
        }
    }

    /// These children.
    pub fn from_slice(alloc: Global, numbers: &[u32]) -> Result<Children, AllocError>
        ensures { IfOk result (λ children. children ≡ numbers.now) }
    {
        match few(numbers) {
            Some(row) => Ok(Children { row }),
            None => many(alloc, numbers),
        }
    }

    /// The same children for one more owner. `Err` if there are too many owners to count.
    pub fn share(&self) -> Result<Children, AllocError>
        ensures { IfOk result (λ shared. shared ≡ self.now) }
    {
        let row = match &self.row {
            Row::None => Row::None,
            Row::One(numbers) => Row::One(*numbers),
            Row::Two(numbers) => Row::Two(*numbers),
            Row::Many(held) => Row::Many(held.clone()?),
        };
        Ok(Children { row })
    }

    /// The numbers, in order.
    pub fn as_slice(&self) -> &[u32]
        ensures { result.now ≡ self.now }
    {
        match &self.row {
            Row::None => &[],
            Row::One(numbers) => numbers.as_slice(),
            Row::Two(numbers) => numbers.as_slice(),
            Row::Many(held) => held.as_slice(),
        }
    }

    /// The number of children.
    pub fn len(&self) -> usize
        ensures { result ≡ length self.now }
    {
        self.as_slice().len()
    }
}

// These numbers in the value itself. `None` if there are too many.
fn few(numbers: &[u32]) -> Option<Row>
    ensures { IfSome result (λ row. numbers_of row ≡ numbers.now) }
{
    match numbers {
        [] => Some(Row::None),
        [only] => Some(Row::One([*only])),
        [first, second] => Some(Row::Two([*first, *second])),
        [_, _, _, ..] => None,
    }
}

// These numbers in memory of their own.
fn many(alloc: Global, numbers: &[u32]) -> Result<Children, AllocError>
    ensures { IfOk result (λ children. children ≡ numbers.now) }
{
    let numbers = List::from_slice(alloc, numbers)?;
    match Rc::new(alloc, numbers) {
        Ok(held) => Ok(Children {
            row: Row::Many(held),
        }),
        Err(_) => Err(AllocError),
    }
}
