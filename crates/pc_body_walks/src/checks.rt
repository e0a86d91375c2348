//! Which single names and texts are allowed in a body.
ghost use Rattle.std.specs.Prelude.{◌∷◌, [], length, nat_lt, if◌then◌else◌};
ghost use Rattle.pc_base.specs.Limits.{text_limit};
ghost use Rattle.pc_body_spec.specs.Bodies.{constructor_named as constructor_in, resolve, slot_named as slot_in, type_meaning, create_name};
ghost use Rattle.pc_body_spec.specs.Faults as spec;
ghost use Rattle.pc_body_spec.specs.Parts as parts;
ghost use Rattle.pc_body_walks.specs.Checking.{TellsFirstBodyFault};

use crate::fault::BodyFault;
use pc_base::{Span, TEXT_LIMIT};
use pc_resolve::{Constructors, Context, Meaning, Scope, TypeMeaning};
use pc_tree::{Name, TypeRef};

/// A text is not too long.
pub(crate) fn check_text(bytes: &[u8], span: Span) -> Result<(), BodyFault>
    ensures { TellsFirstBodyFault result (parts.fault_if (nat_lt text_limit (length bytes.now)) (spec.long_text span)) }
{
    if bytes.len() > TEXT_LIMIT as usize {
        Err(BodyFault::LongText(span))
    } else {
        Ok(())
    }
}

/// A bare name without arguments after it is a visible local or parameter, or a field.
pub(crate) fn check_name(context: &Context, scope: &Scope, name: &Name) -> Result<(), BodyFault>
    ensures { TellsFirstBodyFault result (spec.bare_name_faults (resolve context.now scope.now name.now.text) name.now.span) }
{
    match context.meaning(scope.find(name.text.as_slice()), name.text.as_slice()) {
        Meaning::Local(_) | Meaning::Field => Ok(()),
        Meaning::Method | Meaning::Nothing => Err(BodyFault::Unknown(name.span)),
    }
}

/// A type name without suffixes is that of a primitive, or of an entity with a constructor `create`.
pub(crate) fn check_type_name(context: &Context, name: &Name) -> Result<(), BodyFault>
    ensures { TellsFirstBodyFault result (spec.type_name_faults (type_meaning context.now name.now.text) name.now.span) }
{
    match context.type_meaning(name.text.as_slice()) {
        TypeMeaning::Primitive(_) => Ok(()),
        TypeMeaning::Created { constructors, .. } => check_create(constructors, name.span),
        TypeMeaning::NoValue => Err(BodyFault::Unknown(name.span)),
    }
}

/// One of these constructors is `create`, which is called at this place.
pub(crate) fn check_create(constructors: &Constructors, span: Span) -> Result<(), BodyFault>
    ensures { TellsFirstBodyFault result (parts.unless_some (constructor_in constructors.now create_name) (spec.unknown span)) }
{
    match constructors.create() {
        Some(_) => Ok(()),
        None => Err(BodyFault::Unknown(span)),
    }
}

/// One of these constructors has the name, whose span is given.
pub(crate) fn check_constructor(
    constructors: &Constructors,
    name: &[u8],
    span: Span,
) -> Result<(), BodyFault>
    ensures { TellsFirstBodyFault result (parts.unless_some (constructor_in constructors.now name.now) (spec.unknown span)) }
{
    match constructors.find(name) {
        Some(_) => Ok(()),
        None => Err(BodyFault::Unknown(span)),
    }
}

/// What is consumed is a visible local or parameter.
pub(crate) fn check_consumed(scope: &Scope, name: &Name) -> Result<(), BodyFault>
    ensures { TellsFirstBodyFault result (parts.unless_some (slot_in scope.now name.now.text) (spec.unknown name.now.span)) }
{
    match scope.find(name.text.as_slice()) {
        Some(_) => Ok(()),
        None => Err(BodyFault::Unknown(name.span)),
    }
}

/// A new local has the name of no visible local or parameter, and of no field.
pub(crate) fn check_new(context: &Context, scope: &Scope, name: &Name) -> Result<(), BodyFault>
    ensures { TellsFirstBodyFault result (parts.fault_if (spec.is_name_taken (resolve context.now scope.now name.now.text)) (spec.double name.now.span)) }
{
    match context.meaning(scope.find(name.text.as_slice()), name.text.as_slice()) {
        Meaning::Local(_) | Meaning::Field => Err(BodyFault::Double(name.span)),
        Meaning::Method | Meaning::Nothing => Ok(()),
    }
}

/// The type of a local, if one is written, names an entity.
pub(crate) fn check_written(context: &Context, ty: &Option<TypeRef>) -> Result<(), BodyFault>
    ensures { TellsFirstBodyFault result (parts.written_faults context.now ty.now) }
{
    match ty {
        None => Ok(()),
        Some(ty) => check_type(context, &ty.name),
    }
}

// A type names an entity.
fn check_type(context: &Context, name: &Name) -> Result<(), BodyFault>
    ensures { TellsFirstBodyFault result (if spec.is_entity context.now.entities name.now.text then [] else spec.unknown name.now.span ∷ []) }
{
    if context.has_entity(name.text.as_slice()) {
        Ok(())
    } else {
        Err(BodyFault::Unknown(name.span))
    }
}
