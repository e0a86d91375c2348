//! Rules for operators.
ghost use Rattle.std.specs.Prelude.{◌≡◌};
ghost use Rattle.pc_rules.specs.Operators as spec;

use crate::children::Children;
use crate::parts::{
    after, one_type, reads_as, says_of, starts, through_notes, two_notes, two_types,
};
use crate::said::Said;
use pc_caps::Form;
use pc_masks::Mask;
use pc_tree::{BOOL_ENTITY, Op, STRING_ENTITY, U64_ENTITY};

fn is_arithmetic(op: Op) -> bool
    ensures { result ≡ spec.is_arithmetic op }
{
    matches!(op, Op::Add | Op::Sub | Op::Mul | Op::Div | Op::Rem)
}

fn is_comparison(op: Op) -> bool
    ensures { result ≡ spec.is_comparison op }
{
    matches!(op, Op::Lt | Op::Le | Op::Gt | Op::Ge)
}

fn is_equality(op: Op) -> bool
    ensures { result ≡ spec.is_equality op }
{
    matches!(op, Op::Eq | Op::Ne)
}

fn is_add(op: Op) -> bool
    ensures { result ≡ spec.is_add op }
{
    matches!(op, Op::Add)
}

fn is_xor(op: Op) -> bool
    ensures { result ≡ spec.is_xor op }
{
    matches!(op, Op::Xor)
}

// Whether both are readable values of this entity.
fn both_read_as(entity: u32, values: ((u32, Form), (u32, Form))) -> bool
    ensures { result ≡ spec.both_read_as entity values }
{
    reads_as(entity, values.0) && reads_as(entity, values.1)
}

// The masks after two children, and a value of this entity, as `val`.
fn value_says(entity: u32, children: &Children, masks: (Mask, Mask)) -> Option<Said>
    ensures { result ≡ spec.value_says entity children.now masks }
{
    let reached = through_notes(children, masks)?;
    Some(says_of(Some((entity, Form::Val)), reached))
}

// Arithmetic.
pub(crate) fn arith_says(children: &Children, op: Op, masks: (Mask, Mask)) -> Option<Said>
    ensures { result ≡ spec.arith_says children.now op masks }
{
    let values = two_types(children)?;
    if is_arithmetic(op) && both_read_as(U64_ENTITY, values) {
        value_says(U64_ENTITY, children, masks)
    } else {
        None
    }
}

// Less and greater.
pub(crate) fn compare_says(children: &Children, op: Op, masks: (Mask, Mask)) -> Option<Said>
    ensures { result ≡ spec.compare_says children.now op masks }
{
    let values = two_types(children)?;
    if is_comparison(op) && both_read_as(U64_ENTITY, values) {
        value_says(BOOL_ENTITY, children, masks)
    } else {
        None
    }
}

// Whether both are numbers, truth values or texts.
fn comparable(values: ((u32, Form), (u32, Form))) -> bool
    ensures { result ≡ spec.comparable values }
{
    both_read_as(U64_ENTITY, values)
        || both_read_as(BOOL_ENTITY, values)
        || both_read_as(STRING_ENTITY, values)
}

// Equality.
pub(crate) fn equal_says(children: &Children, op: Op, masks: (Mask, Mask)) -> Option<Said>
    ensures { result ≡ spec.equal_says children.now op masks }
{
    let values = two_types(children)?;
    if is_equality(op) && comparable(values) {
        value_says(BOOL_ENTITY, children, masks)
    } else {
        None
    }
}

// Concatenation of two texts.
pub(crate) fn join_says(children: &Children, op: Op, masks: (Mask, Mask)) -> Option<Said>
    ensures { result ≡ spec.join_says children.now op masks }
{
    let values = two_types(children)?;
    if is_add(op) && both_read_as(STRING_ENTITY, values) {
        value_says(STRING_ENTITY, children, masks)
    } else {
        None
    }
}

// `xor`.
pub(crate) fn xor_says(children: &Children, op: Op, masks: (Mask, Mask)) -> Option<Said>
    ensures { result ≡ spec.xor_says children.now op masks }
{
    let values = two_types(children)?;
    if is_xor(op) && both_read_as(BOOL_ENTITY, values) {
        value_says(BOOL_ENTITY, children, masks)
    } else {
        None
    }
}

// `not`.
pub(crate) fn not_says(children: &Children, masks: (Mask, Mask)) -> Option<Said>
    ensures { result ≡ spec.not_says children.now masks }
{
    let value = one_type(children)?;
    if reads_as(BOOL_ENTITY, value) {
        value_says(BOOL_ENTITY, children, masks)
    } else {
        None
    }
}

// `is` and `isnt`.
pub(crate) fn identity_says(children: &Children, masks: (Mask, Mask)) -> Option<Said>
    ensures { result ≡ spec.identity_says children.now masks }
{
    let _values = two_types(children)?;
    value_says(BOOL_ENTITY, children, masks)
}

// The masks after both of two paths.
pub(crate) fn meet_masks(one: (Mask, Mask), other: (Mask, Mask)) -> (Mask, Mask)
    ensures { result ≡ spec.meet_masks one other }
{
    (one.0.meet(other.0), one.1.meet(other.1))
}

// The masks after an operator whose right side may not be evaluated.
fn lazy_masks(children: &Children, masks: (Mask, Mask)) -> Option<(Mask, Mask)>
    ensures { result ≡ spec.lazy_masks children.now masks }
{
    let both = two_notes(children)?;
    let left = after(both.0);
    if starts(both.0, masks) && starts(both.1, left) {
        Some(meet_masks(left, after(both.1)))
    } else {
        None
    }
}

// `and` and `or`.
pub(crate) fn lazy_says(children: &Children, masks: (Mask, Mask)) -> Option<Said>
    ensures { result ≡ spec.lazy_says children.now masks }
{
    let values = two_types(children)?;
    let reached = lazy_masks(children, masks)?;
    if both_read_as(BOOL_ENTITY, values) {
        Some(says_of(Some((BOOL_ENTITY, Form::Val)), reached))
    } else {
        None
    }
}
