//! Room for the next object, and for its fields.
ghost use Rattle.std.specs.Prelude.{◌≡◌, ◌+◌, ◌≤◌, ◌++◌, None, replicate};

use crate::value::Value;
use pc_arena::Arena;

/// Room for the next object: its maker, and how many fields it has.
#[derive(Clone, Copy, Drop)]
pub struct Room {
    /// The maker.
    pub maker: u32,
    /// The number of fields.
    pub fields: u32,
}

/// Appends this number of fields without values. It cannot run out of memory.
pub fn push_empty(values: &mut Arena<Option<Value>>, fields: u32)
    requires { fields ≤ values.old.spare }
    ensures items { values.new.items ≡ values.old.items ++ replicate fields None }
    ensures spare { values.new.spare + fields ≡ values.old.spare }
{
    for _ in 0..fields {
        values.push(None);
    }
}
