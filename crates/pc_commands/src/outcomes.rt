//! `outcomes SRC COUNT`: the count among its words, and the table of a core's outcomes.
ghost use Rattle.std.specs.Prelude.{◌≡◌, ◌<◌, ◌^◌, IfOk};
ghost use Rattle.pc_args.specs.Numbers.{Reads};
ghost use Rattle.pc_run.specs.Ends.{NeverLacks};
ghost use Rattle.pc_refusals.specs.Inner.Stages.{StageEnds};
ghost use Rattle.pc_commands.specs.Outcomes as spec;
ghost use Rattle.pc_commands.specs.Outcomes.{IsCount, OutcomesTelling};

use pc_args::number_of;
use pc_base::List;
use pc_core::Core;
use pc_io::Bytes;
use pc_outcomes::{OutcomesFault, outcomes, text_of};
use pc_refusals::Stop;
use std::alloc::{AllocError, Global};

/// The greatest number of digits of a count.
const COUNT_DIGITS: usize = 5;

/// The largest count.
const MOST_SEEDS: u64 = 10_000;

/// The count that a text denotes: one to five digits, of a number from 1 to 10,000. There is none if the text is anything
/// else.
pub fn count_of(text: &str) -> Option<u64>
    ensures { Reads (IsCount text.now) result }
{
    let count = number_of(text, COUNT_DIGITS)?;
    if count < 1 || count > MOST_SEEDS {
        return None;
    }
    Some(count)
}

// `SRC: the plays of seeds 0 to S have more than 100000000 steps`, with a line end.
fn make_many_steps_line(alloc: Global, name: &str, seed: u32) -> Result<Bytes, AllocError>
    ensures { IfOk result (λ line. line ≡ spec.many_steps_line name.now seed) }
{
    let text = format!(in alloc;
        "{name}: the plays of seeds 0 to {seed} have more than 100000000 steps\n"
    )?;
    Bytes::copy_of(alloc, text.as_bytes())
}

// `SRC: the texts of seeds 0 to S have more than 67108864 bytes`, with a line end.
fn make_many_bytes_line(alloc: Global, name: &str, seed: u32) -> Result<Bytes, AllocError>
    ensures { IfOk result (λ line. line ≡ spec.many_bytes_line name.now seed) }
{
    let text = format!(in alloc;
        "{name}: the texts of seeds 0 to {seed} have more than 67108864 bytes\n"
    )?;
    Bytes::copy_of(alloc, text.as_bytes())
}

/// The text of the table of the outcomes of a core, none of whose steps lacks anything, for the seeds below a count. A
/// line on err names the source by this name. It stops with 8 at the seed with which all plays have too many steps, or
/// their different texts too many bytes, or because memory ran out.
pub fn write_outcomes(alloc: Global, name: &str, core: &Core, count: u32) -> Result<List<u8>, Stop>
    requires few { count < 2 ^ 31 }
    requires never_lacks { NeverLacks core.now }
    ensures { StageEnds (OutcomesTelling name.now core.now count) result }
{
    match outcomes(alloc, core, count) {
        Ok(entries) => Ok(text_of(alloc, count, entries.as_slice())?),
        Err(OutcomesFault::Steps(seed)) => Err(Stop::Refused {
            status: 8,
            line: make_many_steps_line(alloc, name, seed)?,
        }),
        Err(OutcomesFault::Texts(seed)) => Err(Stop::Refused {
            status: 8,
            line: make_many_bytes_line(alloc, name, seed)?,
        }),
        Err(OutcomesFault::Memory) => Err(Stop::Memory),
    }
}
