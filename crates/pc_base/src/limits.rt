//! The limits of a program, as in this crate's definitions.

/// How many entities a file may have, besides the built-in ones.
pub const ENTITY_LIMIT: u32 = 1_000;

/// How many methods a file may have, counting added constructors and the methods that its entities take over.
pub const METHOD_LIMIT: u32 = 10_000;

/// How many fields an entity may have.
pub const FIELD_LIMIT: u32 = 64;

/// How many slots a method may have, counting the one for `this`.
pub const SLOT_LIMIT: u32 = 64;

/// How many slots all methods of a program can have together.
pub const PROGRAM_SLOT_LIMIT: u32 = METHOD_LIMIT * SLOT_LIMIT;

/// How many nodes a program may have.
pub const NODE_LIMIT: u32 = 200_000;

/// How many bytes a text may have, whether it is written or made in a run.
pub const TEXT_LIMIT: u32 = 4_096;
