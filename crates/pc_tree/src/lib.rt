//! The trees of source texts: types, files, sequences and expressions; and the numbers of the built-in entities.
//!
//! Every list is a `List`, including the terms of an operator, the suffixes of an atom and the arms of an `if`. So a
//! tree is only as deep as its brackets, however long it is, and recursion over it is no deeper.
//!
//! Proved: one table says what each kind of entity may contain, and the functions on kinds compute it.
//!
//! How the code is to be read is in `CONTRIBUTING.md` (How to read the code).
#![tactic(auto)]

mod built_in;
mod expression;
mod file;
mod kinds;
mod spans;
mod written_names;

pub use built_in::{
    BOOL_ENTITY, ENV_ENTITY, FIRST_OWN, NONE_ENTITY, OUT_STREAM_ENTITY, STRING_ENTITY, U64_ENTITY,
};
pub use expression::{Arm, Expr, Item, Seq, Suffix};
pub use file::{Entity, FieldDef, File, MethodDef, ParamDef};
pub use kinds::{EntityKind, MethodWord, Op};
pub use spans::{join, span_of};
pub use written_names::{Name, TypeRef};
