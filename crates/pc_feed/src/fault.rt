//! Why a derivation that is read in pieces is refused.
use pc_deriv::LineFault;
use pc_judge::JudgeFault;

/// Why a derivation that is read in pieces is refused.
#[derive(Clone, Copy, Debug, PartialEq, Eq)]
pub enum StreamFault {
    /// The bytes are not a derivation's text.
    Text(LineFault),
    /// They are the text of an annotation that is not valid: this is its first fault.
    Invalid(JudgeFault),
    /// Memory ran out.
    Memory,
}
