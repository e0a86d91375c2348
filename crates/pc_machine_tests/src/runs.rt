//! Programs run step by step. The numbers of steps are counted by hand, from the tasks of each node.
use crate::turns::{Program, Turn, wrong_program};
use pc_heap::Address;
use pc_machine::{Access, Lack, Outcome};
use pc_test_inputs::programs::HELLO;

// The take, the body, the sequence, the call, the text, the field, the local, the read, the invocation and the return;
// and then the stream prints. There is no actor 7.
const HELLO_TURNS: [Turn; 7] = [
    (0, 5, (0, Outcome::Skipped), ((2, 3, 1, 0), None)),
    (1, 1, (1, Outcome::Moved), ((2, 3, 0, 0), None)),
    (7, 5, (0, Outcome::Skipped), ((2, 3, 0, 0), None)),
    (1, 7, (7, Outcome::Moved), ((2, 3, 0, 0), None)),
    (1, 1, (1, Outcome::Moved), ((2, 3, 1, 0), None)),
    (1, 5, (1, Outcome::Skipped), ((2, 3, 1, 0), None)),
    (0, 5, (1, Outcome::Skipped), ((2, 3, 0, 1), None)),
];

const SPAWN: &[u8] = b"actor A
  new create(n: U64) =>
    None
actor Main
  new create(env: Env) =>
    A(5)
";

// The sixth step makes an actor with its object and its message, which it takes in its own turn.
const SPAWN_TURNS: [Turn; 5] = [
    (2, 5, (0, Outcome::Skipped), ((2, 3, 1, 0), None)),
    (1, 5, (5, Outcome::Moved), ((2, 3, 0, 0), None)),
    (1, 1, (1, Outcome::Moved), ((3, 4, 1, 0), None)),
    (1, 9, (1, Outcome::Skipped), ((3, 4, 1, 0), None)),
    (2, 9, (5, Outcome::Skipped), ((3, 4, 0, 0), None)),
];

const CALL: &[u8] = b"actor Main
  new create(env: Env) =>
    env.out.print(twice(21).string())
  fun twice(n: U64): U64 =>
    n + n
";

// Nine steps up to the invocation of the function, seven in it with its return, and six after it.
const CALL_TURNS: [Turn; 2] = [
    (1, 99, (22, Outcome::Skipped), ((2, 3, 1, 0), None)),
    (0, 9, (1, Outcome::Skipped), ((2, 3, 0, 1), None)),
];

const MAKE: &[u8] = b"class C
  var n: U64
  new create(m: U64) =>
    n = m
actor Main
  new create(env: Env) =>
    let c: C = C(7)
    env.out.print(c.n.string())
";

// Seven steps make the object. The constructor's frame has a body, a sequence and a write, and returns the object.
const MAKE_TURNS: [Turn; 4] = [
    (1, 6, (6, Outcome::Moved), ((2, 3, 0, 0), None)),
    (1, 1, (1, Outcome::Moved), ((2, 4, 0, 0), None)),
    (1, 99, (20, Outcome::Skipped), ((2, 4, 1, 0), None)),
    (0, 9, (1, Outcome::Skipped), ((2, 4, 0, 1), None)),
];

// The writing and the reading of the field of the object that Main makes.
const WRITING: Access = Access {
    address: Address {
        maker: 1,
        serial: 1,
    },
    field: 0,
    write: true,
};

const READING: Access = Access {
    address: Address {
        maker: 1,
        serial: 1,
    },
    field: 0,
    write: false,
};

// Before its writing and its reading, Main is about to touch the field.
const TOUCHED_TURNS: [Turn; 3] = [
    (1, 0, (0, Outcome::Moved), ((2, 3, 1, 0), None)),
    (1, 12, (12, Outcome::Moved), ((2, 4, 0, 0), Some(WRITING))),
    (1, 8, (8, Outcome::Moved), ((2, 4, 0, 0), Some(READING))),
];

const LACK: &[u8] = b"actor Main
  new create(env: Env) =>
    1 + true
";

const LACKS_VALUE: Outcome = Outcome::Lacks(Lack::Value);

// A step that lacks something changes nothing, however often.
const LACK_TURNS: [Turn; 3] = [
    (1, 99, (6, LACKS_VALUE), ((2, 3, 0, 0), None)),
    (1, 99, (0, LACKS_VALUE), ((2, 3, 0, 0), None)),
    (1, 1, (0, LACKS_VALUE), ((2, 3, 0, 0), None)),
];

const NO_METHOD: &[u8] = b"actor Main
  new create(env: Env) =>
    env.missing()
";

const LACKS_METHOD: Outcome = Outcome::Lacks(Lack::Method);

// The take, the body, the sequence, the call and the receiver.
const NO_METHOD_TURNS: [Turn; 2] = [
    (1, 99, (5, LACKS_METHOD), ((2, 3, 0, 0), None)),
    (1, 1, (0, LACKS_METHOD), ((2, 3, 0, 0), None)),
];

const LONG: &[u8] = b"class C
  new create(n: U64) =>
    None
actor Main
  new create(env: Env) =>
    var t: U64 = 0
    while t < 1000000 do
      C(t)
      env.out.print(\"x\")
      t = next(t)
    end
  fun next(n: U64): U64 =>
    n + 1
";

// A million steps: eight, 27,026 rounds of the loop with 37 each, and 30 of another round, after the message.
const LONG_TURNS: [Turn; 2] = [
    (
        1,
        1_000_000,
        (1_000_000, Outcome::Moved),
        ((2, 27_030, 27_027, 0), None),
    ),
    (
        0,
        1_000_000,
        (27_027, Outcome::Skipped),
        ((2, 27_030, 0, 27_027), None),
    ),
];

const PROGRAMS: [Program; 8] = [
    (HELLO, &HELLO_TURNS, &[b"hi"]),
    (SPAWN, &SPAWN_TURNS, &[]),
    (CALL, &CALL_TURNS, &[b"42"]),
    (MAKE, &MAKE_TURNS, &[b"7"]),
    (MAKE, &TOUCHED_TURNS, &[]),
    (LACK, &LACK_TURNS, &[]),
    (NO_METHOD, &NO_METHOD_TURNS, &[]),
    (LONG, &LONG_TURNS, &[b"x"]),
];

#[test]
fn each_turn_moves_and_changes_what_it_should(rt: HostRuntime) {
    assert_eq!(rt; wrong_program(rt.alloc(), &PROGRAMS), None);
}
