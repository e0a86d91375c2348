//! `check SRC`: the text of a derivation.
ghost use Rattle.std.specs.Prelude.{◌≡◌, ◌≤◌, IfOk, length};
ghost use Rattle.pc_deriv.specs.Text.{IsText, deriv_text};
ghost use Rattle.pc_deriv.specs.Parts.{derivation_node_limit, derivation_slot_limit};
ghost use Rattle.pc_deriv.specs.declared.version.Version.TheVariants as version;

use pc_base::List;
use pc_deriv::write;
use pc_refusals::Accepted;
use std::alloc::{AllocError, Global};

/// The text in version 1 of an accepted source's annotation, of at most 640,000 slots and 200,000 nodes. The source is
/// let go before the text is made. The one error is that memory ran out.
pub fn write_derivation(alloc: Global, accepted: Accepted) -> Result<List<u8>, AllocError>
    requires { (length accepted.ann.slots ≤ derivation_slot_limit) × (length accepted.ann.notes ≤ derivation_node_limit) }
    ensures text { IfOk result (λ bytes. bytes ≡ deriv_text version.One accepted.ann) }
    ensures read_back { IfOk result (λ bytes. IsText bytes accepted.ann) }
{
    let Accepted { source, ann } = accepted;
    drop(source);
    write(alloc, &ann)
}
