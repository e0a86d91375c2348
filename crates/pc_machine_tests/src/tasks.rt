//! The tasks that stay inside a frame: constructors of small texts, run to their ends.
use crate::held::Held;
use crate::running::{End, Ending, wrong_ending};
use pc_semantics::{Lack, Outcome};

// The value None.
const NONE: Held<'static> = Held::Prim(0);

const NUMBERS: &[u8] = b"actor Main
  new create(env: Env) =>
    let a = 18446744073709551615 + 3
    let b = 2 - 3
    let c = 4294967296 * 4294967297
    let d = (7 / 2) * (7 % 4)
    let e = (7 / 0) + (7 % 0)";

const NUMBERS_LOCALS: [Held<'static>; 5] = [
    Held::Number(2),
    Held::Number(18446744073709551615),
    Held::Number(4294967296),
    Held::Number(9),
    Held::Number(0),
];

const TRUTHS: &[u8] = b"actor Main
  new create(env: Env) =>
    let a = ((1 < 2) and (2 <= 2)) and ((3 > 2) and (2 >= 2))
    let b = (2 < 2) or ((3 <= 2) or ((2 > 2) or (2 >= 3)))
    let c = (1 == 1) xor (not (1 != 1))
    let d = (true == false) or (\"a\" == \"a\")
    let e = (2 is 2) and (\"b\" isnt \"c\")
    let f = None is None
    let g = this isnt this";

const TRUTHS_LOCALS: [Held<'static>; 7] = [
    Held::Truth(true),
    Held::Truth(false),
    Held::Truth(false),
    Held::Truth(true),
    Held::Truth(true),
    Held::Truth(true),
    Held::Truth(false),
];

const SIDES: &[u8] = b"actor Main
  new create(env: Env) =>
    var n = 0
    let a = false and ((n = 1) == 0)
    let b = true or ((n = 2) == 0)
    let c = true and ((n = 3) == 0)
    let d = false or ((n = 4) == 3)";

const SIDES_LOCALS: [Held<'static>; 5] = [
    Held::Number(4),
    Held::Truth(false),
    Held::Truth(true),
    Held::Truth(true),
    Held::Truth(true),
];

const TURNS: &[u8] = b"actor Main
  new create(env: Env) =>
    var i = 0
    var sum = 0
    let w = while i < 5 do
      i = i + 1
      sum = sum + (if (i % 2) == 0 then 100 else i end)
    end
    var t = \"ab\"
    let u = consume t
    let old = (t = u + \"cd\")";

const TURNS_LOCALS: [Held<'static>; 6] = [
    Held::Number(5),
    Held::Number(209),
    NONE,
    Held::Text(b"abcd"),
    Held::Text(b"ab"),
    NONE,
];

const FIELDS: &[u8] = b"actor Main
  var f: U64
  var g: String
  new create(env: Env) =>
    let a = (f = 3)
    let b = (f = f + 4)
    g = \"x\"
    let c = f
    let d = recover val g end";

const FIELDS_LOCALS: [Held<'static>; 4] = [
    NONE,
    Held::Number(3),
    Held::Number(7),
    Held::Text(b"x"),
];

// The text doubles until it has 4,096 bytes.
const DOUBLES: &[u8] = b"actor Main
  new create(env: Env) =>
    var t = \"a\"
    var i = 0
    while i < 12 do
      t = t + t
      i = i + 1
    end
    let u = t + \"b\"";

// Texts of 514 bytes that were joined at other places.
const SEAMS: &[u8] = b"actor Main
  new create(env: Env) =>
    var same = false
    var longer = true
    var other = true
    var differ = false
    var identical = false
    var t = \"ab\"
    var s = \"ba\"
    var i = 0
    while i < 8 do
      t = t + t
      s = s + s
      i = i + 1
    end
    t = t + \"ab\"
    let u = (\"a\" + s) + \"b\"
    same = t == u
    longer = t == (u + \"a\")
    other = (t + \"a\") == (u + \"b\")
    differ = (t + \"a\") != (u + \"b\")
    identical = t is u";

const SEAMS_LOCALS: [Held<'static>; 5] = [
    Held::Truth(true),
    Held::Truth(false),
    Held::Truth(false),
    Held::Truth(true),
    Held::Truth(true),
];

const UNSET: &[u8] = b"actor Main
  var f: U64
  new create(env: Env) =>
    let a = f";

const GONE: &[u8] = b"actor Main
  new create(env: Env) =>
    let a = 1
    let b = consume a
    let c = a";

const KINDS: &[u8] = b"actor Main
  new create(env: Env) =>
    let a = 1 + true";

const PLACE: &[u8] = b"actor Main
  new create(env: Env) =>
    let a = 1
    a.f = 2";

/// The Return is reached, with the right values in all locals.
const DONE: End = End::Returns(None);

// Evaluating a node takes one step, and so does each task after its children. A round of the loop of DOUBLES has 22
// steps, of which 7 are for the condition; there are 10 before its 12 rounds, and 13 after them.
const ENDINGS: [Ending; 11] = [
    // Numbers wrap, and a division by 0 gives 0.
    (NUMBERS, 0, &NUMBERS_LOCALS, DONE),
    // Values are compared by what they are.
    (TRUTHS, 0, &TRUTHS_LOCALS, DONE),
    // A right side is done where the left one does not decide.
    (SIDES, 0, &SIDES_LOCALS, DONE),
    // Slots are written round a loop and consumed.
    (TURNS, 0, &TURNS_LOCALS, DONE),
    // Fields are written and read.
    (FIELDS, 2, &FIELDS_LOCALS, DONE),
    // Texts are equal wherever they were joined.
    (SEAMS, 0, &SEAMS_LOCALS, DONE),
    // A step that does not move says why.
    (DOUBLES, 0, &[], End::Stops(287, Outcome::TooLong)),
    (UNSET, 1, &[], End::Stops(6, Outcome::Lacks(Lack::Field))),
    (GONE, 0, &[], End::Stops(12, Outcome::Lacks(Lack::Slot))),
    (KINDS, 0, &[], End::Stops(7, Outcome::Lacks(Lack::Value))),
    (PLACE, 0, &[], End::Stops(10, Outcome::Lacks(Lack::Object))),
];

#[test]
fn a_constructor_ends_as_it_should_with_the_right_values(rt: HostRuntime) {
    assert_eq!(rt; wrong_ending(rt.alloc(), &ENDINGS), None);
}
