//! The versions of the derivation text.
ghost use Rattle.std.specs.Prelude.{◌≡◌};
ghost use Rattle.pc_deriv.specs.Lines as lines;
ghost use Rattle.pc_deriv.specs.Text as text;
ghost use Rattle.pc_deriv.specs.Parts as parts;

use pc_masks::Mask;

/// A version of the derivation text. The first line names it.
#[derive(Clone, Copy, Debug, PartialEq, Eq)]
pub enum Version {
    /// The masks after a node are written as they are.
    One,
    /// Instead of each mask after a node, the bits in which it differs from the mask before are written.
    Two,
}

impl Version {
    /// The number that names the version: 1 or 2.
    pub fn number(self) -> u32
        ensures { result ≡ parts.version_number self }
    {
        match self {
            Version::One => 1,
            Version::Two => 2,
        }
    }
}

/// The version with this number, which is 1 or 2.
pub fn version_of(number: u32) -> Version
    ensures { result ≡ lines.version_of number }
{
    if number == 2 {
        Version::Two
    } else {
        Version::One
    }
}

/// What is written for the mask after a node. Applied to what is written, it gives the mask.
pub fn shown_after(version: Version, before: Mask, after: Mask) -> Mask
    ensures { result ≡ text.shown_after version before after }
{
    match version {
        Version::One => after,
        Version::Two => Mask(before.0 ^ after.0),
    }
}
