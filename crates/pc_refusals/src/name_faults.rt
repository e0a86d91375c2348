//! The refusals of a source by its names.
ghost use Rattle.std.specs.Prelude.{◌≡◌};
ghost use Rattle.pc_refusals.specs.Inner.Refusals.{IsNameStop};
ghost use Rattle.pc_refusals.specs.FaultLines.{many_text};

use crate::lines::make_no_main_line;
use crate::refusal::{refuse, refuse_at};
use crate::stop::Stop;
use pc_names::{NameFault, Which};
use std::alloc::Global;

// The words for a limit that is passed.
fn text_of(which: Which) -> &'static str
    ensures { result.now ≡ many_text which }
{
    match which {
        Which::Entities => "too many entities",
        Which::Methods => "too many methods",
        Which::Slots => "too many slots",
        Which::Fields => "too many fields",
        Which::Nodes => "too many nodes",
        Which::Text => "text too long",
    }
}

/// The refusal of a source with this name and these bytes, whose names have this fault.
pub fn refuse_name(alloc: Global, name: &str, bytes: &[u8], fault: NameFault) -> Stop
    ensures { IsNameStop name.now bytes.now fault result }
{
    match fault {
        NameFault::Double(span) => { refuse_at(alloc, name, bytes, 4, span.start, "name twice") }
        NameFault::Unknown(span) => { refuse_at(alloc, name, bytes, 4, span.start, "name unknown") }
        NameFault::NoMain => refuse(4, make_no_main_line(alloc, name)),
        NameFault::BadMain(span) => {
            refuse_at(alloc, name, bytes, 4, span.start, "Main is of another form")
        }
        NameFault::Cycle(span) => {
            refuse_at(alloc, name, bytes, 4, span.start, "trait in a cycle")
        }
        NameFault::TooMany(which, span) => {
            refuse_at(alloc, name, bytes, 8, span.start, text_of(which))
        }
        NameFault::Memory => Stop::Memory,
    }
}
