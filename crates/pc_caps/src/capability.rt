//! The six capabilities and their eight forms.
ghost use Rattle.std.specs.Prelude.{◌≡◌};
ghost use Rattle.pc_caps.specs.Tables as table;

/// A reference capability: what a reference of it denies to all other references to the same object ("Deny Capabilities
/// for Safe, Fast Actors", 2015; the Pony tutorial).
#[derive(Clone, Copy, Debug, PartialEq, Eq)]
pub enum Cap {
    /// Isolated: no other reference reads or writes.
    Iso,
    /// Transition: no other actor reads or writes, and nobody else writes.
    Trn,
    /// Reference: no other actor reads or writes.
    Ref,
    /// Value: nobody writes.
    Val,
    /// Box: no other actor writes.
    Box,
    /// Tag: denies nothing; such a reference can be compared and sent to, never read or written.
    Tag,
}

/// The form of a value: a capability, or one of the two forms of a value that no place holds.
#[derive(Clone, Copy, Debug, PartialEq, Eq)]
pub enum Form {
    /// `iso^`: an isolated value that no place holds.
    IsoE,
    /// `trn^`: a transition value that no place holds.
    TrnE,
    Iso,
    Trn,
    Ref,
    Val,
    Box,
    Tag,
}

/// The form of a value read from a place of this capability.
pub fn plain(cap: Cap) -> Form
    ensures { result ≡ table.plain cap }
{
    match cap {
        Cap::Iso => Form::Iso,
        Cap::Trn => Form::Trn,
        Cap::Ref => Form::Ref,
        Cap::Val => Form::Val,
        Cap::Box => Form::Box,
        Cap::Tag => Form::Tag,
    }
}

/// The form that a value must be below to be stored at `k` (aliasing, in the paper of 2015).
pub fn unalias(cap: Cap) -> Form
    ensures { result ≡ table.unalias cap }
{
    match cap {
        Cap::Iso => Form::IsoE,
        Cap::Trn => Form::TrnE,
        Cap::Ref => Form::Ref,
        Cap::Val => Form::Val,
        Cap::Box => Form::Box,
        Cap::Tag => Form::Tag,
    }
}

/// The capability at which a value of this form is stored if none is written: the capability of an alias of it (the
/// paper of 2015).
pub fn stored(form: Form) -> Cap
    ensures { result ≡ table.stored form }
{
    match form {
        Form::IsoE => Cap::Iso,
        Form::TrnE => Cap::Trn,
        Form::Iso => Cap::Tag,
        Form::Trn => Cap::Box,
        Form::Ref => Cap::Ref,
        Form::Val => Cap::Val,
        Form::Box => Cap::Box,
        Form::Tag => Cap::Tag,
    }
}

/// Whether the content of a place of this capability may be sent to another actor (the Pony tutorial).
pub fn sendable(cap: Cap) -> bool
    ensures { result ≡ table.sendable cap }
{
    matches!(cap, Cap::Iso | Cap::Val | Cap::Tag)
}

/// Whether a value of this form may be sent to another actor.
pub fn sendable_form(form: Form) -> bool
    ensures { result ≡ table.sendable_form form }
{
    matches!(form, Form::IsoE | Form::Iso | Form::Val | Form::Tag)
}
