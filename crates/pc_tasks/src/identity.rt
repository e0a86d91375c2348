//! When two values are the same.
ghost use Rattle.std.specs.Prelude.{◌≡◌};
ghost use Rattle.pc_semantics.specs.Evaluation as spec;
ghost use Rattle.pc_semantics.specs.Parts as parts;

use pc_heap::{Address, Value};

/// Whether two truth values are equal.
pub fn same_truth(left: bool, right: bool) -> bool
    ensures { result ≡ spec.same_truth left right }
{
    if left { right } else { !right }
}

fn same_address(left: Address, right: Address) -> bool
    ensures { result ≡ parts.same_address left right }
{
    if left.maker == right.maker {
        left.serial == right.serial
    } else {
        false
    }
}

/// Whether two values are equal numbers, equal truth values, texts with equal bytes, the same primitive, or the same
/// object.
pub fn same_value(left: &Value, right: &Value) -> bool
    ensures { result ≡ spec.same_value left.now right.now }
{
    match (left, right) {
        (Value::Num(left), Value::Num(right)) => *left == *right,
        (Value::Truth(left), Value::Truth(right)) => same_truth(*left, *right),
        (Value::Text(left), Value::Text(right)) => left.is_equal(right),
        (Value::Prim(left), Value::Prim(right)) => *left == *right,
        (Value::At(left), Value::At(right)) => same_address(*left, *right),
        (Value::Num(_) | Value::Truth(_) | Value::Text(_) | Value::Prim(_) | Value::At(_), _) =>
            false,
    }
}
