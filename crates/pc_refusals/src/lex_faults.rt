//! The refusals of a source that has no tokens.
ghost use Rattle.pc_refusals.specs.Inner.Refusals.{IsLexStop};

use crate::refusal::refuse_at;
use crate::stop::Stop;
use pc_lex::LexFault;
use std::alloc::Global;

/// The refusal of a source with this name, these bytes and this fault.
pub fn refuse_lexing(alloc: Global, name: &str, bytes: &[u8], fault: LexFault) -> Stop
    ensures { IsLexStop name.now bytes.now fault result }
{
    match fault {
        LexFault::BadByte(at) => refuse_at(alloc, name, bytes, 3, at, "bad byte"),
        LexFault::Unclosed(at) => refuse_at(alloc, name, bytes, 3, at, "not closed"),
        LexFault::BadNumber(at) => refuse_at(alloc, name, bytes, 3, at, "bad number"),
        LexFault::BadEscape(at) => refuse_at(alloc, name, bytes, 3, at, "bad escape"),
        LexFault::TooMany(at) => refuse_at(alloc, name, bytes, 8, at, "too many tokens"),
        LexFault::Memory => Stop::Memory,
    }
}
