//! Tests of what reads and writes bytes, and of trees: files and sinks, the lexer, schedules and derivations; what is in
//! the tree of a text, where reading stops, generated programs, and which names are in the key of a file's tables. Which
//! texts have a tree, and what is printed of it, is in `rows/trees.py`, `rows/show.py` and `rows/layout.py`.
#![tactic(auto)]

#[cfg(test)]
mod derivations;
#[cfg(test)]
mod ends;
#[cfg(test)]
mod keys;
#[cfg(test)]
mod long_texts;
#[cfg(test)]
mod made;
#[cfg(test)]
mod parts;
#[cfg(test)]
mod pieces;
#[cfg(test)]
mod readings;
#[cfg(test)]
mod rows;
#[cfg(test)]
mod schedules;
#[cfg(test)]
mod slow;
#[cfg(test)]
mod spellings;
#[cfg(test)]
mod tokens;
#[cfg(test)]
mod writings;
