//! The sentences. What fills a gap is written in its place.

/// The byte of a gap.
pub const GAP: u8 = b'_';

// ---- about a part

pub const UNTYPED: &[u8] = b"_ has no type: ";

pub const NOT_UNDER: &[u8] = b"_ is _, which is not below _, the entity of _";

pub const RECEIVER_UNFIT: &[u8] =
    b"the receiver has the form _, which does not fit _: `_` takes its receiver as _";

pub const PART_UNFIT: &[u8] = b"_ has the form _ and _, _, _";

pub const NOT_BELOW: &[u8] = b"_ has the form _, which is not below _, the form of the result";

pub const NOT_JUST: &[u8] = b"_ is _, and must be _";

pub const COMPARED: &[u8] = b"_ is _: `==` compares two U64, two Bool or two String";

pub const PRINTED: &[u8] = b"_ is _, and must be a U64 or a Bool, or have a method `string`";

pub const UNREADABLE: &[u8] =
    b"_ has the form _, which is not readable: its form must be below box";

pub const UNSEEN: &[u8] = b"_ has the form _, and nothing can be read through it";

pub const UNWRITABLE: &[u8] =
    b"_ has the form _, and nothing can be written through it: only through iso, trn and ref";

pub const NOT_ISOLATED: &[u8] = b"_ has the form _, and only an iso or a trn can be lent";

pub const NOT_SENT: &[u8] =
    b"_ has the form _ and goes to a _ parameter: beside a lent receiver an argument must have the form iso^, iso, val or tag, or go to a parameter of iso, val or tag";

pub const NOT_LIFTED: &[u8] = b"_ has the form _, which a recover lifts to _, and _ does not fit _";

// ---- about a slot

pub const NOT_LIVE: &[u8] = b"`_` is not live here";

pub const CONSUMED: &[u8] = b"`_` is not live here: `consume _` stands at _";

pub const NOT_REACHED: &[u8] =
    b"`_` comes from outside this recover, and _ is not sendable: inside, only outer locals of iso, val or tag are _";

pub const PARAMETER: &[u8] = b"`_` is a parameter, and only a `var` can be assigned";

pub const LET: &[u8] = b"`_` is a `let`, and only a `var` can be assigned";

pub const LOST: &[u8] =
    b"`_` is live before the loop but not after its body, so the next turn could not use it";

// ---- about members

pub const NO_FIELD: &[u8] = b"_ has no field `_`";

pub const NO_METHOD: &[u8] = b"_ has no method `_`";

pub const FIXED: &[u8] =
    b"the field `_` is a `let`, which only a constructor can write, and only once";

pub const UNSET: &[u8] =
    b"the field `_` is not set here: a constructor can read a field only once it is set on every path";

pub const SET: &[u8] = b"the field `_` is a `let` and is already set here";

pub const LOOPED: &[u8] = b"the field `_` is set in the loop, which may run no turn or several";

pub const INTO_TRN: &[u8] =
    b"into a trn only iso^, trn^, val and tag can be written, and iso into a field of tag; the value has the form _";

pub const INTO_ISO: &[u8] =
    b"into an iso only iso^, val and tag can be written, and iso into a field of tag; the value has the form _";

pub const NO_FUNCTION: &[u8] = b"`_` is a constructor, not a function";

pub const BUILTIN_COUNT: &[u8] = b"`string` of U64 and Bool takes no arguments, and _ _ given";

pub const METHOD_COUNT: &[u8] = b"`_` takes _ _, and _ _ given";

pub const NOT_LENT: &[u8] =
    b"`_` takes its receiver as _, and a receiver can be lent only as ref or box";

// ---- why a part has no type

pub const LAST_ITEM: &[u8] = b"its last item has none: ";

pub const FIRST_BRANCH: &[u8] = b"its first branch has none: ";

pub const SECOND_BRANCH: &[u8] = b"its second branch has none: ";

pub const DEFINED: &[u8] = b"a definition gives no value";

pub const ASSIGNED: &[u8] = b"`_` holds nothing before this assignment, so there is no old value";

pub const WRITTEN: &[u8] = b"the field `_` is not set before this write, so there is no old value";

pub const LENT: &[u8] = b"the receiver is lent to `_`, and its result_ is not sendable";

pub const BRANCHES: &[u8] = b"its branches are _ and _, and neither is below the other";

// ---- what fills a gap

// Where a value goes: a field, a parameter or the result.
pub const FIELD: &[u8] = b"the field ";

pub const ANY_PARAMETER: &[u8] = b"the parameter";

pub const RESULT: &[u8] = b"the result";

// What is said of a form that was found.
pub const AN_ALIAS: &[u8] = b", an alias,";

pub const UNSENDABLE: &[u8] = b", which is not sendable,";

// What is done with an outer local.
pub const USE: &[u8] = b"used";

pub const ASSIGN: &[u8] = b"assigned";

// Words that go by a number.
pub const ARGUMENT: &[u8] = b"argument";

pub const ARGUMENTS: &[u8] = b"arguments";

pub const IS: &[u8] = b"is";

pub const ARE: &[u8] = b"are";
