//! Reading a field, writing it, and the form of a `recover`: the tables of this project's profile.
ghost use Rattle.pc_caps.specs.Computed as computed;
ghost use Rattle.std.specs.Prelude.{◌≡◌};
ghost use Rattle.pc_caps.specs.Tables as table;

use crate::capability::{Cap, Form};
use crate::order::fits;

/// The form of a field of capability `field` when it is read from an origin of form `origin` (viewpoint adaptation, in
/// this project's profile). `None` iff the origin is `tag`, from which nothing is read.
pub fn view(origin: Form, field: Cap) -> Option<Form>
    ensures { result ≡ table.view origin field }
{
    let seen = match (origin, field) {
        (Form::Tag, _) => return None,
        (_, Cap::Tag) => Form::Tag,
        (Form::Val, _) | (_, Cap::Val) => Form::Val,
        (Form::Box, Cap::Iso) => Form::Tag,
        (_, Cap::Iso) => Form::Iso,
        (Form::IsoE | Form::Iso, _) => Form::Tag,
        (Form::Ref, Cap::Trn) => Form::Trn,
        (Form::Ref, Cap::Ref) => Form::Ref,
        (Form::TrnE | Form::Trn | Form::Box, Cap::Trn | Cap::Ref | Cap::Box)
        | (Form::Ref, Cap::Box) => Form::Box,
    };
    Some(seen)
}

/// The form of the old value of a field of capability `field` when it is assigned, at an origin of form `origin`
/// (extracting viewpoint, in this project's profile). `None` iff the origin is never written: `val`, `box` or `tag`.
pub fn taken(origin: Form, field: Cap) -> Option<Form>
    ensures { result ≡ table.taken origin field }
{
    match (origin, field) {
        (Form::Val | Form::Box | Form::Tag, _) => None,
        (_, Cap::Iso) => Some(Form::IsoE),
        (_, Cap::Val) => Some(Form::Val),
        (_, Cap::Tag) => Some(Form::Tag),
        (Form::IsoE | Form::Iso, _) => Some(Form::Tag),
        (Form::Ref, Cap::Trn) => Some(Form::TrnE),
        (Form::Ref, Cap::Ref) => Some(Form::Ref),
        (Form::TrnE | Form::Trn, Cap::Trn | Cap::Ref | Cap::Box) | (Form::Ref, Cap::Box) => Some(
            Form::Box,
        ),
    }
}

/// Whether a value of form `value` may be written into a field of capability `field` of an origin of form `origin`
/// (safe to write, in this project's profile): the value fits the field, and the origin accepts values of its form.
pub fn may_write(origin: Form, value: Form, field: Cap) -> bool
    ensures { result ≡ computed.may_write origin value field }
{
    fits(value, field) && is_taken(origin, value, field)
}

// Whether an origin accepts values of this form in a field of this capability.
fn is_taken(origin: Form, value: Form, field: Cap) -> bool
    ensures { result ≡ table.enters origin value field }
{
    match (origin, value) {
        (Form::Ref, _) => true,
        (Form::Val | Form::Box | Form::Tag, _) => false,
        (_, Form::IsoE | Form::Val | Form::Tag) => true,
        (_, Form::Iso) => field == Cap::Tag,
        (Form::TrnE | Form::Trn, Form::TrnE) => true,
        (Form::IsoE | Form::Iso, Form::TrnE)
        | (Form::IsoE | Form::Iso | Form::TrnE | Form::Trn, Form::Trn | Form::Ref | Form::Box) =>
            false,
    }
}

/// The form of a `recover`'s value, by the form of its body's value (this project's profile).
pub fn lift(form: Form) -> Form
    ensures { result ≡ table.lift form }
{
    match form {
        Form::IsoE | Form::TrnE | Form::Ref => Form::IsoE,
        Form::Trn | Form::Box | Form::Val => Form::Val,
        Form::Iso | Form::Tag => Form::Tag,
    }
}
