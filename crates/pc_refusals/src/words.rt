//! The refusal of words.
ghost use Rattle.pc_refusals.specs.Inner.Refusals.{IsRefusal};
ghost use Rattle.pc_refusal_lines.specs.Lines.{usage_line};

use crate::lines::make_usage_line;
use crate::stop::Stop;
use std::alloc::Global;

/// The refusal of words that ask for nothing, or that are not numbers if numbers are required.
pub fn refuse_words(alloc: Global) -> Stop
    ensures { IsRefusal 2 usage_line result }
{
    match make_usage_line(alloc) {
        Ok(line) => Stop::Refused { status: 2, line },
        Err(_) => Stop::Memory,
    }
}
