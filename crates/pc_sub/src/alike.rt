//! Whether two methods are alike.
ghost use Rattle.std.specs.Prelude.{◌≡◌, ◌↔◌, IsTrue, map};
ghost use Rattle.pc_sub.specs.Alike as spec;

use pc_core::{Method, ParamInfo};

// Whether the two parameters have the same type.
fn same_type(first: ParamInfo, second: ParamInfo) -> bool
    ensures { result ≡ spec.same_type first second }
{
    first.entity == second.entity && first.cap == second.cap
}

// Whether there is the same number of parameters, each of the same type.
fn same_types(first: &[ParamInfo], second: &[ParamInfo]) -> bool
    ensures { result ≡ spec.same_types first.now second.now }
{
    let mut left = second;
    for param in first {
        match left {
            [] => return false,
            [other, others @ ..] => {
                if !same_type(*param, *other) {
                    return false;
                }
                left = others;
            }
        }
    }
    left.is_empty()
}

// Whether the two methods have as many parameters, of the same types.
#[tactic(auto, using(crate::proofs::SameTypes::same_types_iff))]
fn same_params(first: &Method, second: &Method) -> bool
    ensures { IsTrue result ↔ (map spec.param_type second.now.params ≡ map spec.param_type first.now.params) }
{
    same_types(first.params.as_slice(), second.params.as_slice())
}

// Whether the two methods have one name, kind and receiver.
fn same_head(first: &Method, second: &Method) -> bool
    ensures { IsTrue result ↔ spec.SameHead first.now second.now }
{
    second.name == first.name && second.kind == first.kind && second.receiver == first.receiver
}

// Whether the two methods have the same result.
fn same_result(first: &Method, second: &Method) -> bool
    ensures { IsTrue result ↔ spec.SameResult first.now second.now }
{
    second.result.0 == first.result.0 && second.result.1 == first.result.1
}

/// Whether the two methods have the same name, kind, receiver and result, and the same types of parameters.
pub(crate) fn is_alike(first: &Method, second: &Method) -> bool
    ensures { IsTrue result ↔ spec.Alike first.now second.now }
{
    same_head(first, second) && same_result(first, second) && same_params(first, second)
}
