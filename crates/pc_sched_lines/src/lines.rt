//! Turns as words, and a list of steps as the line of a schedule.
ghost use Rattle.std.specs.Prelude.{◌≡◌, ◌++◌, ◌≤◌, IfOk, OnOk, length, string_bytes};
ghost use Rattle.pc_sched_lines.specs.Lines as line;
ghost use Rattle.pc_sched_lines.specs.Lines.{IsLine};
ghost use Rattle.pc_sched.specs.Schedules.{turn_limit};

use crate::rows::rows_of;
use pc_base::List;
use pc_sched::Turn;
use std::alloc::{AllocError, Global};

// The word of a turn.
fn word_of(alloc: Global, turn: Turn) -> Result<String, AllocError>
    ensures { IfOk result (λ word. string_bytes word ≡ line.turn_word turn) }
{
    let Turn { actor, times } = turn;
    if times == 1 {
        format!(in alloc; "{actor}")
    } else {
        format!(in alloc; "{actor}*{times}")
    }
}

// Appends the word of a turn to a text.
fn push_word(alloc: Global, text: &mut Vec<u8>, turn: Turn) -> Result<(), AllocError>
    ensures { OnOk result (text.new.items ≡ text.old.items ++ line.turn_word turn) }
{
    let word = word_of(alloc, turn)?;
    text.extend_from_slice(word.as_bytes())?;
    Ok(())
}

// Appends the words of turns to a text, each after a blank, and a line end.
fn push_words(alloc: Global, text: &mut Vec<u8>, turns: &[Turn]) -> Result<(), AllocError>
    ensures { OnOk result (text.new.items ≡ text.old.items ++ line.more_words turns.now) }
{
    for turn in turns {
        text.push(b' ')?;
        push_word(alloc, text, *turn)?;
    }
    text.push(b'\n')?;
    Ok(())
}

// The words of turns with one blank between any two, and a line end.
fn write_turns(alloc: Global, turns: &[Turn]) -> Result<List<u8>, AllocError>
    ensures { IfOk result (λ text. text ≡ line.line_of turns.now) }
{
    let mut text = Vec::new(alloc);
    match turns {
        [] => text.push(b'\n')?,
        [first, rest @ ..] => {
            push_word(alloc, &mut text, *first)?;
            push_words(alloc, &mut text, rest)?;
        }
    }
    Ok(List::from_vec(text))
}

/// A list of at most 1,000,000 steps as one line of a schedule. Each maximal row of steps of one actor is a word: the
/// actor's number, or that number, a `*` and the number of steps in the row if there are several. There is one blank
/// between any two words, and a line end after the last.
#[tactic(auto, using(crate::proofs::Spelling::is_line))]
pub fn line_of(alloc: Global, list: &[u32]) -> Result<List<u8>, AllocError>
    requires { length list.now ≤ turn_limit }
    ensures { IfOk result (IsLine list.now) }
{
    let rows = rows_of(alloc, list)?;
    write_turns(alloc, rows.as_slice())
}
