//! The hints. What fills a gap is written in its place.

pub const SAY_IS: &[u8] = b"let _ say `is _`";

pub const CONSUME: &[u8] =
    b"write `consume _`: it has the form _, and after it the name cannot be used";

pub const CONSUME_RECEIVER: &[u8] =
    b"write `(consume _)._(..)`: it has the form _, and after it the name cannot be used";

pub const OLD_VALUE: &[u8] = b"an assignment gives the old value: `_ = ..` has the form _";

pub const DECLARE_FUNCTION: &[u8] =
    b"declare `fun _ _`: in a function without a capability `this` is box";

pub const RECOVER_NEW: &[u8] =
    b"write `recover _ end`, which has the form iso^; or declare the constructor `new iso`";

pub const RECOVER_OBJECT: &[u8] =
    b"make the object in a `recover`: what a recover gives of a ref is iso^";

pub const GOES_TO: &[u8] = b"a value of _ goes to _";

pub const DECLARE_BOX: &[u8] = b"where `_` writes nothing, declare it `fun box _`";

pub const DECLARE_RESULT: &[u8] = b"declare the result _";

pub const DECLARE_HAT: &[u8] = b"declare the result of `_` _ _: without `^` a call gives an alias";

pub const COMPARE: &[u8] = b"`=` assigns and gives the old value; `==` compares";

pub const COMPARE_NUMBER: &[u8] = b"compare it with a number, as in `n != 0`";

pub const TO_STRING: &[u8] = b"`string()` of it is a String";

pub const COMPARE_OBJECTS: &[u8] = b"compare objects with `is` or `isnt`";

pub const USE_BEFORE: &[u8] = b"use it before it is consumed";

pub const USE_OR_ASSIGN: &[u8] = b"use it before it is consumed, or assign to `_` again after that";

pub const MAKE_INSIDE: &[u8] =
    b"make inside the recover what it needs, or hand it in as iso, val or tag";

pub const GIVE_OUT: &[u8] = b"let the recover give the value, and assign it outside";

pub const COPY_FIRST: &[u8] = b"copy it to a `var` first";

pub const DECLARE_VAR: &[u8] = b"declare it `var _`";

pub const CALL_METHOD: &[u8] = b"`_` is a method: call it, `_(..)`";

pub const CALL_VALUE: &[u8] = b"`_` is a field; `(e._)(..)` calls `apply` of its value";

pub const TAG_IN_RECOVER: &[u8] = b"in a recover `this` is seen as tag, since _ is not sendable";

pub const TAG_UNTIL_SET: &[u8] = b"until all fields are set `this` is a tag";

pub const SEND_MESSAGE: &[u8] = b"an actor only takes messages from others: call a behaviour of it";

pub const SET_BEFORE: &[u8] = b"set `_` before this";

pub const CALL_CONSTRUCTOR: &[u8] = b"write `_(..)`";

pub const SEND_ARGUMENT: &[u8] =
    b"make the argument in a `recover`, or let the parameter be iso, val or tag";

pub const CONSUME_AFTER: &[u8] = b"consume it after the loop";

pub const CONSUME_OR_ASSIGN: &[u8] =
    b"consume it after the loop, or assign to `_` again in the body";

pub const SET_BEFORE_LOOP: &[u8] = b"set it before the loop";

pub const RECOVER_VALUE: &[u8] =
    b"write `recover val`, or let the body end with a ref, which is lifted to iso^";

pub const CONSUME_END: &[u8] = b"let the body end with `consume _`";
