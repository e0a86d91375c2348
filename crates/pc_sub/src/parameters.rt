//! Parameters that must be sendable.
ghost use Rattle.std.specs.Prelude.{◌≡◌, ◌<◌, ◌^◌, length, slice_get};
ghost use Rattle.pc_sub.specs.Declarations as spec;
ghost use Rattle.pc_sub.specs.DeclarationFaults as faults;

use crate::faults::DeclFault;
use pc_caps::{Form, sendable};
use pc_core::{Core, Method, MethodKind, ParamInfo};

// Whether the parameters of a class's constructor must be sendable, by the form of its result.
fn isolates(form: Form) -> bool
    ensures { result ≡ spec.isolates form }
{
    matches!(form, Form::IsoE | Form::TrnE | Form::Val)
}

// Whether the parameters of a method of this kind and form of result must be sendable.
fn takes_sendable(kind: MethodKind, form: Form) -> bool
    ensures { result ≡ spec.takes_sendable kind form }
{
    match kind {
        MethodKind::Fun => false,
        MethodKind::Be | MethodKind::Spawn => true,
        MethodKind::New => isolates(form),
    }
}

// The first parameter of this method that can't be sent.
fn not_sendable(method: u32, params: &[ParamInfo]) -> Option<DeclFault>
    requires { length params.now < 2 ^ 32 }
    ensures { result ≡ slice_get (faults.not_sendable method 0 params.now) 0 }
{
    let mut parameter = 0;
    for param in params {
        if !sendable(param.cap) {
            return Some(DeclFault::NotSendable { method, parameter });
        }
        parameter += 1;
    }
    None
}

// The first parameter of this method that must be sendable and is not.
fn own_fault(number: u32, method: &Method) -> Option<DeclFault>
    requires { length method.now.params < 2 ^ 32 }
    ensures { result ≡ slice_get (faults.own_faults number method.now) 0 }
{
    if takes_sendable(method.kind, method.result.1) {
        not_sendable(number, method.params.as_slice())
    } else {
        None
    }
}

// The first parameter of all methods that must be sendable and is not.
pub(crate) fn parameter_fault(core: &Core) -> Option<DeclFault>
    ensures { result ≡ slice_get (faults.parameter_faults 0 core.now.methods) 0 }
{
    core.formed();
    let mut number = 0;
    for method in core.methods() {
        match own_fault(number, method) {
            None => number += 1,
            Some(fault) => return Some(fault),
        }
    }
    None
}
