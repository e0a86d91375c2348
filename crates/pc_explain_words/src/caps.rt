//! Capabilities and forms in words.
ghost use Rattle.std.specs.Prelude.{◌≡◌, ◌++◌, OnOk};
ghost use Rattle.pc_caps.specs.Words.{cap_name, form_name};
ghost use Rattle.pc_explain_words.specs.Caps as spec;

use pc_caps::{Cap, Form, cap_name, form_name};
use pc_explain_window::push_bytes;
use std::alloc::AllocError;

/// The word for a capability.
pub fn cap_word(cap: Cap) -> &'static [u8]
    ensures { result.now ≡ cap_name cap }
{
    cap_name(cap).as_bytes()
}

/// The word for a form.
pub fn form_word(form: Form) -> &'static [u8]
    ensures { result.now ≡ form_name form }
{
    form_name(form).as_bytes()
}

/// The capability of a constructor's new object, by the form of its result.
pub fn new_word(form: Form) -> &'static [u8]
    ensures { result.now ≡ spec.new_word form }
{
    match form {
        Form::IsoE | Form::Iso => b"iso",
        Form::TrnE | Form::Trn => b"trn",
        Form::Ref => b"ref",
        Form::Val => b"val",
        Form::Box => b"box",
        Form::Tag => b"tag",
    }
}

// The forms that fit a capability.
fn fitting(cap: Cap) -> &'static [Form]
    ensures { result.now ≡ spec.fitting cap }
{
    match cap {
        Cap::Iso => &[Form::IsoE],
        Cap::Trn => &[Form::IsoE, Form::TrnE],
        Cap::Ref => &[Form::IsoE, Form::TrnE, Form::Ref],
        Cap::Val => &[Form::IsoE, Form::TrnE, Form::Val],
        Cap::Box => &[
            Form::IsoE,
            Form::TrnE,
            Form::Trn,
            Form::Ref,
            Form::Val,
            Form::Box,
        ],
        Cap::Tag => &[
            Form::IsoE,
            Form::TrnE,
            Form::Iso,
            Form::Trn,
            Form::Ref,
            Form::Val,
            Form::Box,
            Form::Tag,
        ],
    }
}

// The capabilities that take a form.
fn taking(form: Form) -> &'static [Cap]
    ensures { result.now ≡ spec.taking form }
{
    match form {
        Form::IsoE => &[Cap::Iso, Cap::Trn, Cap::Ref, Cap::Val, Cap::Box, Cap::Tag],
        Form::TrnE => &[Cap::Trn, Cap::Ref, Cap::Val, Cap::Box, Cap::Tag],
        Form::Iso | Form::Tag => &[Cap::Tag],
        Form::Trn | Form::Box => &[Cap::Box, Cap::Tag],
        Form::Ref => &[Cap::Ref, Cap::Box, Cap::Tag],
        Form::Val => &[Cap::Val, Cap::Box, Cap::Tag],
    }
}

// What follows one of them, given how many are left.
fn after_one(left: usize) -> &'static [u8]
    ensures { result.now ≡ spec.after_one left }
{
    if left == 0 {
        b""
    } else if left == 1 {
        b" or "
    } else {
        b", "
    }
}

// Appends forms: `A`, `A or B`, `A, B or C`.
fn push_forms(out: &mut Vec<u8>, forms: &[Form]) -> Result<(), AllocError>
    ensures { OnOk result (out.new.items ≡ out.old.items ++ spec.form_words forms.now) }
{
    let mut left = forms.len();
    for form in forms {
        left -= 1;
        push_bytes(out, form_word(*form))?;
        push_bytes(out, after_one(left))?;
    }
    Ok(())
}

// Appends capabilities in the same way.
fn push_caps(out: &mut Vec<u8>, caps: &[Cap]) -> Result<(), AllocError>
    ensures { OnOk result (out.new.items ≡ out.old.items ++ spec.cap_words caps.now) }
{
    let mut left = caps.len();
    for cap in caps {
        left -= 1;
        push_bytes(out, cap_word(*cap))?;
        push_bytes(out, after_one(left))?;
    }
    Ok(())
}

/// Appends the forms that fit a capability.
pub fn push_fitting(out: &mut Vec<u8>, cap: Cap) -> Result<(), AllocError>
    ensures { OnOk result (out.new.items ≡ out.old.items ++ spec.form_words (spec.fitting cap)) }
{
    push_forms(out, fitting(cap))
}

/// Appends the capabilities that take a form.
pub fn push_taking(out: &mut Vec<u8>, form: Form) -> Result<(), AllocError>
    ensures { OnOk result (out.new.items ≡ out.old.items ++ spec.cap_words (spec.taking form)) }
{
    push_caps(out, taking(form))
}

// `takes`, for a place that takes several forms or one.
fn takes_word(cap: Cap) -> &'static [u8]
    ensures { result.now ≡ spec.takes_word cap }
{
    match cap {
        Cap::Iso => b"takes only ",
        Cap::Trn | Cap::Ref | Cap::Val | Cap::Box | Cap::Tag => b"takes ",
    }
}

/// Appends which forms a place with this capability takes.
#[tactic(auto, unfolding(crate::specs::Caps::takes_words))]
pub fn push_takes(out: &mut Vec<u8>, cap: Cap) -> Result<(), AllocError>
    ensures { OnOk result (out.new.items ≡ out.old.items ++ spec.takes_words cap) }
{
    push_bytes(out, takes_word(cap))?;
    push_fitting(out, cap)
}
