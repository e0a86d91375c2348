//! `explain SRC`: the text for a core, or for the fault of a tree that has none.
ghost use Rattle.std.specs.Prelude.{◌≡◌, ◌≤◌, IfOk, length};
ghost use Rattle.pc_check.specs.Faults.{RefusesCore};
ghost use Rattle.pc_lex.specs.Pieces.{bytes_limit};
ghost use Rattle.pc_names.specs.Faults.{IsNotMemory};
ghost use Rattle.pc_places.specs.Text.{HasTokens};
ghost use Rattle.pc_refusals.specs.Inner.Stages.{StageEnds};
ghost use Rattle.pc_tree.specs.View.{file_view};
ghost use Rattle.pc_explain_command.specs.Explain as spec;
ghost use Rattle.pc_explain_command.specs.Explain.{Explaining, IsFileFault};
ghost use Rattle.pc_explain_command.specs.Inner.Explaining.{TellsCore};

use pc_base::List;
use pc_check::{CheckFault, check};
use pc_core::Core;
use pc_explain::explain_core;
use pc_explain_names::explain_names;
use pc_names::NameFault;
use pc_places::tokens_of;
use pc_refusals::{Stop, refuse_name};
use pc_tree::File;
use std::alloc::{AllocError, Global};

// Whether a fault is refused, and not explained.
fn is_refused(fault: NameFault) -> bool
    ensures { result ≡ spec.is_not_explained fault }
{
    match fault {
        NameFault::TooMany(_, _) | NameFault::Memory => true,
        NameFault::Double(_)
        | NameFault::Unknown(_)
        | NameFault::NoMain
        | NameFault::BadMain(_)
        | NameFault::Cycle(_) => false,
    }
}

/// The explanation of the first fault of the tree of the source with this name and these bytes. It stops with the
/// refusal of a limit that is passed, or because memory ran out.
pub fn explain_fault(
    alloc: Global,
    name: &str,
    bytes: &[u8],
    file: &File,
    fault: NameFault,
) -> Result<List<u8>, Stop>
    requires { IsNotMemory fault → IsFileFault (file_view file.now) fault }
    ensures { StageEnds (Explaining name.now bytes.now (file_view file.now)) result }
{
    if is_refused(fault) {
        return Err(refuse_name(alloc, name, bytes, fault));
    }
    Ok(explain_names(alloc, name, bytes, file, fault)?)
}

// Why a core has no derivation. The tokens of its source are read again, so that none are kept while the core is made
// and checked.
fn explain_refused(
    alloc: Global,
    name: &str,
    bytes: &[u8],
    core: &Core,
    fault: &CheckFault,
) -> Result<List<u8>, AllocError>
    requires short { length bytes.now ≤ bytes_limit }
    requires lexed { HasTokens bytes.now }
    requires refused { RefusesCore core.now fault.now }
    ensures { IfOk result (TellsCore name.now bytes.now core.now) }
{
    let tokens = tokens_of(alloc, bytes)?;
    explain_core(alloc, name, bytes, tokens.as_slice(), core, fault)
}

/// The text for the core of the source with this name and these bytes: that it is accepted, or why it has no derivation.
/// The one error is that memory ran out.
pub fn write_core(
    alloc: Global,
    name: &str,
    bytes: &[u8],
    core: &Core,
) -> Result<List<u8>, AllocError>
    requires short { length bytes.now ≤ bytes_limit }
    requires lexed { HasTokens bytes.now }
    ensures { IfOk result (TellsCore name.now bytes.now core.now) }
{
    match check(alloc, core) {
        Ok(_) => List::from_slice(alloc, b"accepted\n"),
        Err(fault) => explain_refused(alloc, name, bytes, core, &fault),
    }
}
