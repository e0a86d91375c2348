//! A table of outcomes as text.
ghost use Rattle.std.specs.Prelude.{◌≡◌, ◌++◌, IfOk, OnOk, string_bytes};
ghost use Rattle.pc_outcomes.specs.Texts as spec;

use crate::entry::{Ending, Entry};
use pc_base::List;
use std::alloc::{AllocError, Global};

// How a play ended, if it did not run to its end.
fn ending_words(ending: Ending) -> &'static str
    ensures { result.now ≡ spec.ending_words ending }
{
    match ending {
        Ending::Done => "",
        Ending::Cut => " (cut)",
        Ending::TooLong => " (too long)",
    }
}

// The head of an entry, without its line end.
fn head_of(
    alloc: Global,
    count: u32,
    seed: u32,
    number: u32,
    steps: u32,
) -> Result<String, AllocError>
    ensures { IfOk result (λ line. string_bytes line ≡ spec.seed_numbers count seed number steps) }
{
    format!(in alloc; "seed {seed}: {number} of {count}, {steps} steps")
}

// Appends a text with two blanks before each of its lines.
fn push_indented(all: &mut Vec<u8>, text: &[u8]) -> Result<(), AllocError>
    ensures { OnOk result (all.new.items ≡ all.old.items ++ spec.indented text.now) }
{
    let mut begins = true;
    'bytes: for byte in text {
        if begins {
            all.extend_from_slice(b"  ")?;
        }
        all.push(*byte)?;
        begins = *byte == b'\n';
    }
    Ok(())
}

// Appends the head and the text of an entry.
fn push_entry(alloc: Global, all: &mut Vec<u8>, count: u32, entry: &Entry) -> Result<(), AllocError>
    ensures { OnOk result (all.new.items ≡ all.old.items ++ spec.entry_text count entry.now) }
{
    let head = head_of(alloc, count, entry.seed, entry.number, entry.steps)?;
    all.extend_from_slice(head.as_bytes())?;
    all.extend_from_slice(ending_words(entry.ending).as_bytes())?;
    all.push(b'\n')?;
    push_indented(all, entry.text.as_slice())
}

/// The text of a table: for each entry, a head `seed S: N of COUNT, M steps`, with ` (cut)` or ` (too long)` if its
/// play ended so, and then its text, with two blanks before each line.
pub fn text_of(alloc: Global, count: u32, entries: &[Entry]) -> Result<List<u8>, AllocError>
    ensures { IfOk result (λ text. text ≡ spec.outcomes_text count entries.now) }
{
    let mut all = Vec::new(alloc);
    'entries: for entry in entries {
        push_entry(alloc, &mut all, count, entry)?;
    }
    Ok(List::from_vec(all))
}
