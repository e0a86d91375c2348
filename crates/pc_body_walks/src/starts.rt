//! How chains of suffixes start, and what is allowed there.
ghost use Rattle.std.specs.Prelude.{◌≡◌, ◌∷◌, []};
ghost use Rattle.pc_tree.specs.Tree as t;
ghost use Rattle.pc_tree.specs.View.{suffix_view, suffixes_view};
ghost use Rattle.pc_body_spec.specs.Bodies.{with_method, resolve, type_meaning};
ghost use Rattle.pc_body_spec.specs.Faults as spec;
ghost use Rattle.pc_body_walks.specs.Checking.{TellsFirstBodyFault, created_faults, name_head_faults, next_view, type_head_faults};

use crate::checks::{check_constructor, check_create};
use crate::fault::BodyFault;
use pc_base::Span;
use pc_resolve::{Constructors, Context, Meaning, Scope, TypeMeaning};
use pc_tree::{Name, Suffix};

/// What follows a part of a chain.
#[derive(Clone, Copy, Debug, PartialEq, Eq)]
pub(crate) enum Next {
    Arguments,
    Name,
    /// Nothing: the chain ends.
    End,
}

/// The start of these suffixes.
pub(crate) fn next_of(suffixes: &[Suffix]) -> Next
    ensures { next_view result ≡ spec.next_of (suffixes_view suffixes.now) }
{
    match suffixes.split_first() {
        None => Next::End,
        Some((first, _)) => next_is(first),
    }
}

fn next_is(first: &Suffix) -> Next
    ensures { (rest : t.Suffixes) → next_view result ≡ spec.next_of (t.suffix (suffix_view first.now) rest) }
{
    match first {
        Suffix::Dot(_) => Next::Name,
        Suffix::Args { .. } => Next::Arguments,
    }
}

/// A bare name that starts a chain is a visible local or parameter, a field, or before arguments a method.
pub(crate) fn check_name_head(
    context: &Context,
    scope: &Scope,
    name: &Name,
    next: Next,
) -> Result<(), BodyFault>
    ensures { TellsFirstBodyFault result (name_head_faults name.now (resolve context.now scope.now name.now.text) (next_view next)) }
{
    match context.meaning(scope.find(name.text.as_slice()), name.text.as_slice()) {
        Meaning::Local(_) | Meaning::Field => Ok(()),
        Meaning::Method => check_method_head(name, next),
        Meaning::Nothing => Err(BodyFault::Unknown(name.span)),
    }
}

// Arguments follow the bare name of a method.
fn check_method_head(name: &Name, next: Next) -> Result<(), BodyFault>
    ensures { TellsFirstBodyFault result (spec.start_faults (with_method name.now) (next_view next) (spec.unknown name.now.span ∷ [])) }
{
    match next {
        Next::Arguments => Ok(()),
        Next::Name | Next::End => Err(BodyFault::Unknown(name.span)),
    }
}

/// A type name that starts a chain is that of a primitive, or of a class or an actor. A name directly after the latter
/// is that of a constructor, and is followed by arguments; otherwise there is a constructor `create`.
pub(crate) fn check_type_head(
    context: &Context,
    head: &Name,
    suffixes: &[Suffix],
) -> Result<(), BodyFault>
    ensures { TellsFirstBodyFault result (type_head_faults (type_meaning context.now head.now.text) head.now.span (suffixes_view suffixes.now)) }
{
    match context.type_meaning(head.text.as_slice()) {
        TypeMeaning::Primitive(_) => Ok(()),
        TypeMeaning::Created { constructors, .. } => check_created(
            constructors,
            head.span,
            suffixes,
        ),
        TypeMeaning::NoValue => Err(BodyFault::Unknown(head.span)),
    }
}

// The name of a class or an actor with these constructors, and what comes directly after it.
fn check_created(
    constructors: &Constructors,
    span: Span,
    suffixes: &[Suffix],
) -> Result<(), BodyFault>
    ensures { TellsFirstBodyFault result (created_faults constructors.now span (suffixes_view suffixes.now)) }
{
    let Some((first, rest)) = suffixes.split_first() else {
        return check_create(constructors, span);
    };
    match first {
        Suffix::Dot(name) => check_called(constructors, name, next_of(rest)),
        Suffix::Args { .. } => check_create(constructors, span),
    }
}

// The name of one of these constructors, followed by arguments.
fn check_called(constructors: &Constructors, name: &Name, next: Next) -> Result<(), BodyFault>
    ensures { TellsFirstBodyFault result (spec.constructor_faults constructors.now name.now (next_view next)) }
{
    match next {
        Next::Arguments => check_constructor(constructors, name.text.as_slice(), name.span),
        Next::Name | Next::End => Err(BodyFault::Unknown(name.span)),
    }
}
