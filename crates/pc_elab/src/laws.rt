//! Laws of the cores of files. The call does nothing, and its contract is the law.
ghost use Rattle.pc_elab.specs.Cores.{CoresAreFormed};

use pc_text_order::names_are_in_order;

/// The core of a file that tokens spell, in the order of a text, is formed. It has at most 640,000 slots and 200,000
/// nodes.
pub fn cores_are_formed()
    ensures { CoresAreFormed }
{
    names_are_in_order();
    pc_file_spec::cores_are_formed();
    pc_file_spec::cores_are_small();
}
