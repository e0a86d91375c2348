//! What the words of a command line ask for, read by clap: one command line, with a subcommand for each command and its required
//! arguments.
ghost use Rattle.std.specs.Prelude.{◌≡◌, [], false, true, map, option_and_then, option_map, unwrap_or, IfErr, IfOk};
ghost use Rattle.clap.specs.Matches.{first_value};
ghost use Rattle.clap.specs.Simple.{new_shape, shape_of};
ghost use Rattle.clap.specs.Words.{FailsBy, app_of, fault_of, found_of, kind_of, rows_of, rule_of, subcommand_of, subcommand_rows_of, takes, with_subcommand};
ghost use Rattle.clap.specs.declared.builder.command.Command.TheViews.{out-Command as fields_of};
ghost use Rattle.pc_args.specs.Asked.{asked_by_name, texts, argument_value};
ghost use Rattle.pc_args.specs.Commands.{asked_by};
ghost use Rattle.pc_args.specs.Line as line;
ghost use Rattle.pc_args.specs.ReadingEnds.{ReadingEnds};
ghost use Rattle.pc_args.specs.Rows.{line_of};

use clap::error::ErrorKind;
use clap::{Arg, ArgMatches, Error};
use std::alloc::{AllocError, Global};

// The subcommands in their order, each with its arguments.
const SUBCOMMANDS: [(&str, &[&str]); 15] = [
    ("check", &["SRC"]),
    ("judge", &["SRC", "DERIV"]),
    ("run", &["SRC", "SCHED"]),
    ("show", &["SRC"]),
    ("make", &["SEED", "SIZE"]),
    ("swap", &["SRC", "SCHED", "PLACE"]),
    ("trace", &["SRC", "SCHED"]),
    ("sends", &["SRC"]),
    ("upgrade", &["SRC", "DERIV"]),
    ("schedule", &["SRC", "SEED"]),
    ("play", &["SRC", "SEED"]),
    ("outcomes", &["SRC", "COUNT"]),
    ("places", &["SRC"]),
    ("events", &["SRC", "SCHED"]),
    ("explain", &["SRC"]),
];

/// What words ask for, with names and numbers as written.
#[derive(Clone, Copy, Debug)]
pub enum Command<'a> {
    /// To check a source.
    Check {
        source: &'a str,
    },
    /// To judge a derivation of a source.
    Judge {
        source: &'a str,
        derivation: &'a str,
    },
    /// To run a source by a schedule.
    Run {
        source: &'a str,
        schedule: &'a str,
    },
    /// To print a source.
    Show {
        source: &'a str,
    },
    /// To generate a program from a number, and to run it.
    Make {
        seed: &'a str,
        size: &'a str,
    },
    /// To exchange two turns of a schedule of a source.
    Swap {
        source: &'a str,
        schedule: &'a str,
        place: &'a str,
    },
    /// To write the accesses of a run of a source by a schedule, with their clocks.
    Trace {
        source: &'a str,
        schedule: &'a str,
    },
    /// To write the events of a run of a source by a schedule, with their clocks.
    Events {
        source: &'a str,
        schedule: &'a str,
    },
    /// To write the core of a source with its names and places.
    Places {
        source: &'a str,
    },
    /// To explain why a source is refused.
    Explain {
        source: &'a str,
    },
    /// To list which entity of a source may send which message.
    Sends {
        source: &'a str,
    },
    /// To rewrite a derivation of a source, in version 2 of its text.
    Upgrade {
        source: &'a str,
        derivation: &'a str,
    },
    /// To write the schedule that a seed chooses for a source.
    Schedule {
        source: &'a str,
        seed: &'a str,
    },
    /// To run a source by the schedule that a seed chooses.
    Play {
        source: &'a str,
        seed: &'a str,
    },
    /// To play a source by some seeds, and to write each different outcome once.
    Outcomes {
        source: &'a str,
        count: &'a str,
    },
}

/// Why words ask for nothing.
#[derive(Clone, Copy, Debug)]
pub enum WordsFault {
    /// The command line does not take them.
    Refused,
    /// Memory ran out.
    Memory,
}

// A required argument of one value, without a name of its own on the command line.
fn make_positional<'a>(alloc: Global, id: &'a str) -> Arg<'a>
    ensures rule { rule_of result ≡ line.positional id.entry.now }
    ensures local { result.global ≡ false }
{
    Arg::new(alloc, id).required(true)
}

// A command without subcommands, with these required arguments.
fn make_leaf<'a>(
    alloc: Global,
    name: &'a str,
    ids: &[&'a str],
) -> Result<clap::Command<'a>, AllocError>
    ensures shape { IfOk result (λ c. shape_of c ≡ record (new_shape name.entry.now) { rules = map line.positional (texts ids.now) }) }
    ensures local { IfOk result (λ c. (fields_of c).has_globals ≡ false) }
{
    let mut leaf = clap::Command::new(alloc, name);
    for id in ids {
        leaf = leaf.arg(make_positional(alloc, id))?;
    }
    Ok(leaf)
}

// A command with one more subcommand, with these required arguments.
fn with_leaf<'a>(
    command: clap::Command<'a>,
    alloc: Global,
    name: &'a str,
    ids: &[&'a str],
) -> Result<clap::Command<'a>, AllocError>
    ensures { IfOk result (λ c. app_of c ≡ with_subcommand (app_of command.entry) (record (new_shape name.entry.now) { rules = map line.positional (texts ids.now) })) }
{
    match make_leaf(alloc, name, ids) {
        Ok(leaf) => command.subcommand(leaf),
        Err(error) => Err(error),
    }
}

// The command line without a subcommand.
fn make_bare<'a>(alloc: Global) -> clap::Command<'a>
    ensures { app_of result ≡ line.bare }
{
    clap::Command::new(alloc, "rcap")
        .no_binary_name(true)
        .disable_help_subcommand(true)
        .subcommand_required(true)
}

// The command line with these subcommands: of each its name and its arguments.
fn make_line<'a>(
    alloc: Global,
    rows: &[(&'a str, &'a [&'a str])],
) -> Result<clap::Command<'a>, AllocError>
    ensures { IfOk result (λ c. app_of c ≡ line_of rows.now) }
{
    let mut command = make_bare(alloc);
    for row in rows {
        command = with_leaf(command, alloc, row.0, row.1)?;
    }
    Ok(command)
}

// The whole command line, its words not yet read.
fn make_rcap<'a>(alloc: Global) -> Result<clap::Command<'a>, AllocError>
    ensures { IfOk result (λ c. app_of c ≡ line.rcap) }
{
    make_line(alloc, &SUBCOMMANDS)
}

// The matches of the words, or why clap refuses them.
fn read_matches<'a>(alloc: Global, words: &'a [&'a str]) -> Result<ArgMatches<'a>, Error>
    ensures ok { IfOk result (λ m. subcommand_rows_of m ≡ subcommand_of line.rcap (texts words.entry.now)) }
    ensures kinds { FailsBy (fault_of line.rcap (texts words.entry.now)) result }
    ensures err { IfErr result (λ e. takes line.rcap (texts words.entry.now) ≡ true → kind_of e ≡ ErrorKind.OutOfMemory) }
{
    make_rcap(alloc)?.try_get_matches_from(words)
}

/// Reads the words after the program's name. The answer is what they ask for by definition, or they are refused, or
/// memory ran out.
pub fn read_words<'a>(alloc: Global, words: &'a [&'a str]) -> Result<Command<'a>, WordsFault>
    ensures { ReadingEnds (texts words.entry.now) result }
{
    match read_matches(alloc, words) {
        Ok(matches) => match command_in(&matches) {
            Some(command) => Ok(command),
            None => Err(WordsFault::Refused),
        },
        Err(error) if error.kind() == ErrorKind::OutOfMemory => Err(WordsFault::Memory),
        Err(_) => Err(WordsFault::Refused),
    }
}

// The command that matches name.
fn command_in<'a>(matches: &ArgMatches<'a>) -> Option<Command<'a>>
    ensures { option_map asked_by result ≡ option_and_then asked_by_name (subcommand_rows_of matches.now) }
{
    let (name, own) = matches.subcommand()?;
    match name {
        "check" => Some(Command::Check {
            source: value_of(own, "SRC"),
        }),
        "judge" => Some(Command::Judge {
            source: value_of(own, "SRC"),
            derivation: value_of(own, "DERIV"),
        }),
        "run" => Some(Command::Run {
            source: value_of(own, "SRC"),
            schedule: value_of(own, "SCHED"),
        }),
        "show" => Some(Command::Show {
            source: value_of(own, "SRC"),
        }),
        "make" => Some(Command::Make {
            seed: value_of(own, "SEED"),
            size: value_of(own, "SIZE"),
        }),
        "swap" => Some(Command::Swap {
            source: value_of(own, "SRC"),
            schedule: value_of(own, "SCHED"),
            place: value_of(own, "PLACE"),
        }),
        "trace" => Some(Command::Trace {
            source: value_of(own, "SRC"),
            schedule: value_of(own, "SCHED"),
        }),
        "events" => Some(Command::Events {
            source: value_of(own, "SRC"),
            schedule: value_of(own, "SCHED"),
        }),
        "places" => Some(Command::Places {
            source: value_of(own, "SRC"),
        }),
        "explain" => Some(Command::Explain {
            source: value_of(own, "SRC"),
        }),
        "sends" => Some(Command::Sends {
            source: value_of(own, "SRC"),
        }),
        "upgrade" => Some(Command::Upgrade {
            source: value_of(own, "SRC"),
            derivation: value_of(own, "DERIV"),
        }),
        "schedule" => Some(Command::Schedule {
            source: value_of(own, "SRC"),
            seed: value_of(own, "SEED"),
        }),
        "play" => Some(Command::Play {
            source: value_of(own, "SRC"),
            seed: value_of(own, "SEED"),
        }),
        "outcomes" => Some(Command::Outcomes {
            source: value_of(own, "SRC"),
            count: value_of(own, "COUNT"),
        }),
        _ => None,
    }
}

// The value of an argument, or the empty text.
fn value_of<'a>(matches: &ArgMatches<'a>, id: &str) -> &'a str
    ensures { result.now ≡ argument_value id.now (rows_of (found_of matches.now)) }
{
    first_text(matches, id)
}

// The first value of an argument, or the empty text.
fn first_text<'a>(matches: &ArgMatches<'a>, id: &str) -> &'a str
    ensures { result.now ≡ unwrap_or (first_value (found_of matches.now) id.now) [] }
{
    matches.get_str(id).unwrap_or("")
}
