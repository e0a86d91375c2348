//! The entities of the language, by their numbers. Those of a file come after them.

/// `None`, a primitive.
pub const NONE_ENTITY: u32 = 0;

/// `U64`, the numbers.
pub const U64_ENTITY: u32 = 1;

/// `Bool`, the truth values.
pub const BOOL_ENTITY: u32 = 2;

/// `String`, the texts.
pub const STRING_ENTITY: u32 = 3;

/// `Env`, whose only object is given to `Main`.
pub const ENV_ENTITY: u32 = 4;

/// `OutStream`, the actor that prints.
pub const OUT_STREAM_ENTITY: u32 = 5;

/// The number of the first entity of the file, which is the number of built-in ones.
pub const FIRST_OWN: u32 = 6;
