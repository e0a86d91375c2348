//! The entity Main.
ghost use Rattle.pc_names.specs.Faults as faults;
ghost use Rattle.std.specs.Prelude.{◌≡◌, map};
ghost use Rattle.std.specs.List.{list_any};
ghost use Rattle.pc_tree.specs.View.{entity_view, method_view};
ghost use Rattle.pc_names.specs.Parts.{TellsFirst};
ghost use Rattle.pc_names.specs.Mains as spec;

use crate::fault::NameFault;
use pc_caps::Cap;
use pc_members::is_new;
use pc_tree::{Entity, EntityKind, MethodDef, ParamDef, TypeRef};

// Whether this is `val`, which is also the capability of an `Env` without one.
fn is_val(cap: Option<Cap>) -> bool
    ensures { result ≡ spec.is_val cap }
{
    matches!(cap, None | Some(Cap::Val))
}

// Whether the type is `Env val`.
fn is_env(ty: &TypeRef) -> bool
    ensures { result ≡ spec.is_env ty.now }
{
    ty.name.text.as_slice() == b"Env".as_slice() && is_val(ty.cap)
}

// Whether this is exactly one parameter, of type `Env val`.
fn takes_env(params: &[ParamDef]) -> bool
    ensures { result ≡ spec.takes_env params.now }
{
    match params {
        [param] => is_env(&param.ty),
        _ => false,
    }
}

// Whether a program may start with this method.
fn begins(method: &MethodDef) -> bool
    ensures { result ≡ spec.begins_program (method_view method.now) }
{
    is_new(method.word)
        && (method.name.text.as_slice() == b"create".as_slice()
            && takes_env(method.params.as_slice()))
}

// Whether a program may start with one of these methods.
fn has_beginning(methods: &[MethodDef]) -> bool
    ensures { result ≡ list_any spec.begins_program (map method_view methods.now) }
{
    for method in methods {
        if begins(method) {
            return true;
        }
    }
    false
}

// Whether a program may start with this entity.
fn is_main(entity: &Entity) -> bool
    ensures { result ≡ spec.is_main (entity_view entity.now) }
{
    matches!(entity.kind, EntityKind::Actor) && has_beginning(entity.methods.as_slice())
}

/// The first of these entities that is named `Main` is one with which a program may start.
pub(crate) fn check_main(entities: &[Entity]) -> Result<(), NameFault>
    ensures { TellsFirst result (faults.main_faults (map entity_view entities.now)) }
{
    for entity in entities {
        if entity.name.text.as_slice() == b"Main".as_slice() {
            return if is_main(entity) {
                Ok(())
            } else {
                Err(NameFault::BadMain(entity.name.span))
            };
        }
    }
    Err(NameFault::NoMain)
}
