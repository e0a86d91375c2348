//! Tests of what commands do that the program does not show: with files and sinks in memory of which a call fails, with
//! sinks that count their calls, and with a referee that records what it was asked. What the program shows is in the rows of
//! `rows/`.
//!
//! Only tested, and stated by no contract: that each text and each line is one call of `put`, and that none follows a call
//! that failed.
#![tactic(auto)]

#[cfg(test)]
mod counted_sink;
#[cfg(test)]
mod programs;
#[cfg(test)]
mod referee_cases;
#[cfg(test)]
mod run_cases;
#[cfg(test)]
mod running;
#[cfg(test)]
mod source_cases;
