//! A list that several owners share.
ghost use Rattle.std.specs.Prelude.{◌≡◌, length, IfOk};

use crate::list::List;
use std::alloc::{AllocError, Global};
use std::marker::Model;
use std::rc::Rc;

/// A sequence of values that never changes, kept in memory once for all its owners. Contracts see the sequence and
/// nothing else.
///
/// Text literals keep their bytes this way, since the body of a trait's method is in the core once for each entity that
/// takes it over.
#[derive(Debug, Drop)]
pub struct SharedList<T> {
    row: Rc<List<T>>,
}

impl<T> Model for SharedList<T> {
    ghost use Rattle.std.specs.Prelude.{List as Sequence};

    ghost Value = { Sequence T };

    ghost view = { λ shared. shared.row.value };
}

impl<T: Drop> SharedList<T> {
    /// These values, with one owner.
    pub fn from_list(alloc: Global, values: List<T>) -> Result<SharedList<T>, AllocError>
        ensures { IfOk result (λ shared. shared ≡ values) }
    {
        match Rc::new(alloc, values) {
            Ok(row) => Ok(SharedList { row }),
            Err(_) => Err(AllocError),
        }
    }

    /// The same values for one more owner. `Err` if there are too many owners to count.
    pub fn share(&self) -> Result<SharedList<T>, AllocError>
        ensures { IfOk result (λ shared. shared ≡ self.now) }
    {
        Ok(SharedList {
            row: self.row.clone()?,
        })
    }
}

impl<T> SharedList<T> {
    /// The values, in order.
    pub fn as_slice(&self) -> &[T]
        ensures { result.now ≡ self.now }
    {
        self.row.as_slice()
    }

    /// The number of values.
    pub fn len(&self) -> usize
        ensures { result ≡ length self.now }
    {
        self.as_slice().len()
    }
}

impl<T: Copy + Drop> SharedList<T> {
    /// A list of these values, with one owner.
    pub fn from_slice(alloc: Global, values: &[T]) -> Result<SharedList<T>, AllocError>
        ensures { IfOk result (λ shared. shared ≡ values.now) }
    {
        SharedList::from_list(alloc, List::from_slice(alloc, values)?)
    }
}
