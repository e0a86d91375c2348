//! Capabilities and forms in words.
ghost use Rattle.std.specs.Prelude.{◌≡◌};
ghost use Rattle.pc_caps.specs.Words as spec;

use crate::capability::{Cap, Form};

/// The word for a capability.
pub fn cap_name(cap: Cap) -> &'static str
    ensures { result.now ≡ spec.cap_name cap }
{
    match cap {
        Cap::Iso => "iso",
        Cap::Trn => "trn",
        Cap::Ref => "ref",
        Cap::Val => "val",
        Cap::Box => "box",
        Cap::Tag => "tag",
    }
}

/// The word for a form.
pub fn form_name(form: Form) -> &'static str
    ensures { result.now ≡ spec.form_name form }
{
    match form {
        Form::IsoE => "iso^",
        Form::TrnE => "trn^",
        Form::Iso => "iso",
        Form::Trn => "trn",
        Form::Ref => "ref",
        Form::Val => "val",
        Form::Box => "box",
        Form::Tag => "tag",
    }
}
