//! Tests of the machine: arenas and heaps by hand, constructors that are run to their ends, whole programs step by step,
//! machines of accepted programs after a list, and the trace of one that is not accepted. What a run, a trace or a play of
//! an accepted program writes is in the rows of `rows/`.
#![tactic(auto)]

#[cfg(test)]
mod arenas;
#[cfg(test)]
mod heaps;
#[cfg(test)]
mod held;
#[cfg(test)]
mod memory;
#[cfg(test)]
mod races;
#[cfg(test)]
mod running;
#[cfg(test)]
mod runs;
#[cfg(test)]
mod sightings;
#[cfg(test)]
mod tasks;
#[cfg(test)]
mod turns;
