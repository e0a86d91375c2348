//! Why a test does not find what it should.
use pc_lex::LexFault;
use pc_names::NameFault;
use pc_parse::ParseFault;
use std::alloc::AllocError;

/// Why a test does not find what it should.
#[derive(Clone, Copy, Debug, PartialEq, Eq)]
pub enum Wrong {
    /// Memory ran out.
    OutOfMemory,
    /// Something is larger than what a call takes.
    PastLimit,
    /// The text has no tokens.
    NoTokens(LexFault),
    /// The text has no tree.
    NoTree(ParseFault),
    /// The text has no core.
    NoCore(NameFault),
    /// The program is not accepted.
    NotAccepted,
    /// What a number names is not there.
    NotThere,
    /// From this place on something else was found.
    Differs(usize),
}

impl From<AllocError> for Wrong {
    fn from(_: AllocError) -> Wrong {
        Wrong::OutOfMemory
    }
}

impl From<LexFault> for Wrong {
    fn from(fault: LexFault) -> Wrong {
        if fault == LexFault::Memory {
            Wrong::OutOfMemory
        } else {
            Wrong::NoTokens(fault)
        }
    }
}

impl From<ParseFault> for Wrong {
    fn from(fault: ParseFault) -> Wrong {
        if fault == ParseFault::Memory {
            Wrong::OutOfMemory
        } else {
            Wrong::NoTree(fault)
        }
    }
}

impl From<NameFault> for Wrong {
    fn from(fault: NameFault) -> Wrong {
        if fault == NameFault::Memory {
            Wrong::OutOfMemory
        } else {
            Wrong::NoCore(fault)
        }
    }
}

/// The first place at which a text differs from what it should be, if it does.
pub fn place_of_difference(found: &[u8], wanted: &[u8]) -> Option<usize> {
    for place in 0..wanted.len() {
        if found.get(place).copied() != Some(wanted[place]) {
            return Some(place);
        }
    }
    if found.len() == wanted.len() {
        None
    } else {
        Some(wanted.len())
    }
}

/// Checks that a text is what it should be.
pub fn compared(found: &[u8], wanted: &[u8]) -> Result<(), Wrong> {
    match place_of_difference(found, wanted) {
        Some(place) => Err(Wrong::Differs(place)),
        None => Ok(()),
    }
}
