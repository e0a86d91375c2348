//! Tests of what a tree means that the program does not show: numbers of names and of nodes, what is in a node, and what
//! conforms to what; and of a judge that reads a derivation in pieces, however they are cut, and of what it asks a referee.
//! What the program shows of names, bodies, cores and derivations is in the rows of `rows/`.
#![tactic(auto)]

#[cfg(test)]
mod bodies;
#[cfg(test)]
mod children;
#[cfg(test)]
mod conforming;
#[cfg(test)]
mod cuts;
#[cfg(test)]
mod files;
#[cfg(test)]
mod judgements;
#[cfg(test)]
mod names;
