//! Reading a schedule, word by word.
ghost use Rattle.std.specs.Prelude.{◌≡◌, ◌<◌, ◌≤◌, List as Sequence, length, Ok, Err, IfOk, IfErr};
ghost use Rattle.std.specs.List.{prefix_len};
ghost use Rattle.pc_sched.specs.declared.turns.Turn.{Turn};
ghost use Rattle.pc_sched.specs.declared.fault.SchedFault.{SchedFault};
ghost use Rattle.pc_sched.specs.Schedules.{schedule_limit, turn_limit, TurnList, FirstScheduleFault};
ghost use Rattle.pc_sched.specs.Schedules as schedules;
ghost use Rattle.pc_sched.specs.Reading.{Steps, Stuck};
ghost use Rattle.pc_sched.specs.Answers.{RefusesSchedule, AnswersSchedule};

use crate::fault::SchedFault;
use crate::turns::{Turn, turn_of};
use pc_base::List;
use std::alloc::Global;

/// How many turns a schedule may have.
const TURN_LIMIT: u32 = 1_000_000;

/// Whether a byte separates words.
fn is_blank(byte: u8) -> bool
    ensures { result ≡ schedules.is_separator byte }
{
    byte == b' ' || byte == b'\t' || byte == b'\r' || byte == b'\n'
}

/// The number of bytes at the front that are no blanks.
fn word_len(text: &[u8]) -> usize
    ensures value { result ≡ prefix_len schedules.no_blank text.now }
    ensures within { result ≤ length text.now }
{
    let mut n = 0;
    while n < text.len() && !is_blank(text[n]) {
        n += 1;
    }
    n
}

/// Reads the blank or the word at a place, and appends the turn of a word to the turns, of which there are `total`.
/// Returns where it ends, and how many turns there are then.
fn step(
    text: &[u8],
    at: usize,
    total: u32,
    turns: &mut List<Turn>,
) -> Result<(usize, u32), SchedFault>
    requires within { at < length text.now }
    requires short { length text.now ≤ schedule_limit }
    requires few { total ≤ turn_limit }
    ensures ok { IfOk result (λ r. Steps text.now at total turns.old turns.new r) }
    ensures err { IfErr result (Stuck text.now at total) }
    ensures moves { IfOk result (λ r. r.0 ≤ length text.now) }
{
    let n = word_len(&text[at..]);
    if n == 0 {
        return Ok((at + 1, total));
    }
    let turn = match turn_of(&text[at..at + n]) {
        Some(turn) => turn,
        None => return Err(SchedFault::BadWord(at as u32)),
    };
    if turn.times > TURN_LIMIT - total {
        return Err(SchedFault::TooMany(at as u32));
    }
    turns.push(turn)?;
    Ok((at + n, total + turn.times))
}

/// Reads a text word by word, to its end.
fn read_all(alloc: Global, text: &[u8]) -> Result<List<Turn>, SchedFault>
    requires { length text.now ≤ schedule_limit }
    ensures ok { IfOk result (TurnList text.now) }
    ensures err { IfErr result (RefusesSchedule text.now) }
{
    let mut turns: List<Turn> = List::new(alloc);
    let mut at: usize = 0;
    let mut total: u32 = 0;
    while at < text.len() {
        (at, total) = step(text, at, total, &mut turns)?;
    }
    Ok(turns)
}

/// The turns that a text of at most 1,048,576 bytes spells, at most 1,000,000 of them.
///
/// Words are separated by blanks: spaces, tabs, CR and LF. A word is an actor's number, for one turn, or that number, a
/// `*` and the number of turns. Each number has one to ten digits and is below 2^32.
///
/// The first fault is that of the first word that has no such form, or with which there are too many turns.
pub fn read(alloc: Global, bytes: &[u8]) -> Result<List<Turn>, SchedFault>
    requires { length bytes.now ≤ schedule_limit }
    // The turns are those of the text.
    ensures ok { IfOk result (TurnList bytes.now) }
    // The fault is the first of the text, or memory ran out.
    ensures err { IfErr result (RefusesSchedule bytes.now) }
    // If the text spells turns within the limit, they are returned, unless memory ran out.
    ensures listed { (turns : Sequence Turn) → TurnList bytes.now turns → AnswersSchedule result (Ok turns) }
    // If there is a first fault, it is returned, unless memory ran out.
    ensures faulty { (fault : SchedFault) → FirstScheduleFault bytes.now fault → AnswersSchedule result (Err fault) }
{
    read_all(alloc, bytes)
}
