//! The value that carries no information.
ghost use Rattle.std.specs.Prelude.{◌≡◌};
ghost use Rattle.pc_semantics.specs.Configurations as spec;

use pc_heap::Value;
use pc_tree::NONE_ENTITY;

/// None, the value of everything that has no other.
pub fn none() -> Value
    ensures { result ≡ spec.none }
{
    Value::Prim(NONE_ENTITY)
}
