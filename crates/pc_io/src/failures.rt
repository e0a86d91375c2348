//! The names of the files that could not be read.
ghost use Rattle.std.specs.Prelude.{◌≡◌, ◌<◌, [], ◌∷◌, ◌++◌, IfOk, OnOk, vec_len, vec_capacity};

use crate::Bytes;
use std::alloc::{AllocError, Global};

/// Names, the latest last, one for each failure.
#[derive(Debug, Drop)]
pub struct Failures {
    pub names: Vec<Bytes>,
}

impl Failures {
    pub fn new(alloc: Global) -> Failures
        ensures { result.names.items ≡ [] }
    {
        Failures {
            names: Vec::new(alloc),
        }
    }

    /// Allocates all the memory that recording one more failure of this name will need.
    pub fn make_room(&mut self, alloc: Global, name: &str) -> Result<Bytes, AllocError>
        ensures name { IfOk result (λ copy. copy ≡ name.now) }
        ensures room { OnOk result (vec_len self.new.names < vec_capacity self.new.names) }
        ensures same { self.new.names.items ≡ self.old.names.items }
    {
        self.names.reserve(1)?;
        Bytes::copy_of(alloc, name.as_bytes())
    }

    /// Records one more failure of this name, in memory that was allocated before.
    pub fn add(&mut self, name: Bytes)
        requires { vec_len self.old.names < vec_capacity self.old.names }
        ensures { self.new.names.items ≡ self.old.names.items ++ name ∷ [] }
    {
        let _ = self.names.push(name);
    }
}
