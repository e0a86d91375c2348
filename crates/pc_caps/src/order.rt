//! The order on forms.
ghost use Rattle.pc_caps.specs.Computed as computed;
ghost use Rattle.std.specs.Prelude.{◌≡◌, IsTrue, ◌↔◌};
ghost use Rattle.pc_caps.specs.Tables.{IsBelow};
ghost use Rattle.pc_caps.specs.Computed.{is_below};
ghost use Rattle.pc_caps.specs.Tables as table;

use crate::capability::{Cap, Form, unalias};

/// Whether `a` is below `b` in the order on forms: the reflexive and transitive closure of ten pairs (subtyping of
/// capabilities, in the paper of 2015).
#[tactic(auto, using(crate::specs::Closure::below_iff))]
pub fn below(lower: Form, upper: Form) -> bool
    ensures order { IsTrue result ↔ IsBelow lower upper }
    ensures value { result ≡ is_below lower upper }
{
    is_in_row(lower, upper)
}

// Whether `upper` is in the row of `lower`, in the order as a table.
fn is_in_row(lower: Form, upper: Form) -> bool
    ensures { result ≡ is_below lower upper }
{
    match lower {
        Form::IsoE => true,
        Form::TrnE => !matches!(upper, Form::IsoE | Form::Iso),
        Form::Iso => matches!(upper, Form::Iso | Form::Tag),
        Form::Trn => matches!(upper, Form::Trn | Form::Box | Form::Tag),
        Form::Ref => matches!(upper, Form::Ref | Form::Box | Form::Tag),
        Form::Val => matches!(upper, Form::Val | Form::Box | Form::Tag),
        Form::Box => matches!(upper, Form::Box | Form::Tag),
        Form::Tag => matches!(upper, Form::Tag),
    }
}

/// Whether a value of form `form` may be stored at a place of capability `cap`: `form` is below `unalias(cap)`.
pub fn fits(form: Form, cap: Cap) -> bool
    ensures order { IsTrue result ↔ IsBelow form (table.unalias cap) }
    ensures value { result ≡ computed.fits form cap }
{
    below(form, unalias(cap))
}
