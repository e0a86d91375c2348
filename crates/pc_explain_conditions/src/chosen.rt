//! Which rules are considered for a node.
ghost use Rattle.std.specs.Prelude.{◌≡◌, slice_get};
ghost use Rattle.pc_rules.specs.Calls as calls;
ghost use Rattle.pc_rules.specs.Operators as operators;
ghost use Rattle.pc_explain_conditions.specs.Chosen as spec;
ghost use Rattle.pc_explain_conditions.specs.Conditions.{callee as callee_is};

use crate::children::callee;
use crate::fields::incomplete;
use crate::site::Site;
use pc_ann::Rule;
use pc_core::{Core, MethodKind, NodeKind};
use pc_tree::Op;

pub(crate) fn is_function(kind: MethodKind) -> bool
    ensures { result ≡ calls.is_function kind }
{
    matches!(kind, MethodKind::Fun)
}

pub(crate) fn is_behaviour(kind: MethodKind) -> bool
    ensures { result ≡ calls.is_behaviour kind }
{
    matches!(kind, MethodKind::Be)
}

fn calls_function(site: &Site, name: u32) -> bool
    ensures { result ≡ spec.calls_function (callee_is site.now.core.now site.now.children.now name) }
{
    match callee(site.core, site.children, name) {
        None => false,
        Some(method) => is_function(method.kind),
    }
}

fn calls_behaviour(site: &Site, name: u32) -> bool
    ensures { result ≡ spec.calls_behaviour (callee_is site.now.core.now site.now.children.now name) }
{
    match callee(site.core, site.children, name) {
        None => false,
        Some(method) => is_behaviour(method.kind),
    }
}

// Whether two texts are equal.
fn same_text(one: &[u8], other: &[u8]) -> bool
    ensures { result ≡ calls.same_text one.now other.now }
{
    let mut left = other;
    for byte in one {
        match left {
            [] => return false,
            [first, others @ ..] => {
                if *byte != *first {
                    return false;
                }
                left = others;
            }
        }
    }
    left.is_empty()
}

fn is_string(core: &Core, name: u32) -> bool
    ensures { result ≡ spec.names_string (slice_get core.now.names name) }
{
    match core.name_at(name) {
        None => false,
        Some(text) => same_text(text.as_slice(), b"string"),
    }
}

fn is_arithmetic(op: Op) -> bool
    ensures { result ≡ operators.is_arithmetic op }
{
    matches!(op, Op::Add | Op::Sub | Op::Mul | Op::Div | Op::Rem)
}

fn is_comparison(op: Op) -> bool
    ensures { result ≡ operators.is_comparison op }
{
    matches!(op, Op::Lt | Op::Le | Op::Gt | Op::Ge)
}

fn is_equality(op: Op) -> bool
    ensures { result ≡ operators.is_equality op }
{
    matches!(op, Op::Eq | Op::Ne)
}

fn is_add(op: Op) -> bool
    ensures { result ≡ operators.is_add op }
{
    matches!(op, Op::Add)
}

fn is_xor(op: Op) -> bool
    ensures { result ≡ operators.is_xor op }
{
    matches!(op, Op::Xor)
}

/// Whether the rule is considered for this node.
pub(crate) fn chosen(site: &Site, rule: Rule) -> bool
    ensures { result ≡ spec.is_chosen site.now.core.now site.now.children.now site.now.node.now rule site.now.node.now.kind }
{
    match (rule, &site.node.kind) {
        (Rule::Get, NodeKind::Field(_)) => !incomplete(site.core, site.children, site.node),
        (Rule::GetOwn, NodeKind::Field(_)) => incomplete(site.core, site.children, site.node),
        (Rule::Put, NodeKind::SetField(_)) => !incomplete(site.core, site.children, site.node),
        (Rule::PutOwn, NodeKind::SetField(_)) => incomplete(site.core, site.children, site.node),
        (Rule::Call, NodeKind::Call(name)) => !calls_behaviour(site, *name),
        (Rule::CallRecover, NodeKind::Call(name)) => calls_function(site, *name),
        (Rule::Send, NodeKind::Call(name)) => calls_behaviour(site, *name),
        (Rule::Builtin, NodeKind::Call(name)) => is_string(site.core, *name),
        (Rule::Arith, NodeKind::Binary(op)) => is_arithmetic(*op),
        (Rule::Compare, NodeKind::Binary(op)) => is_comparison(*op),
        (Rule::Equal, NodeKind::Binary(op)) => is_equality(*op),
        (Rule::Join, NodeKind::Binary(op)) => is_add(*op),
        (Rule::Logic, NodeKind::Binary(op)) => is_xor(*op),
        (_, _) => true,
    }
}
