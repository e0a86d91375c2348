//! Runs in which one allocation fails, at any point. What failed is done once more, and then everything goes on as if
//! nothing had failed. `bench/refuse-memory` lets each allocation of these tests fail in turn.
use crate::turns::{Program, Turn, wrong_program};
use pc_machine::Outcome;
use pc_test_inputs::programs::CHAIN;

/// An actor that is made and sent two messages, each time with more arguments than are kept in a message itself.
const ARGUMENTS: &[u8] = b"class C
  var t: String
  new create(s: String) =>
    t = s + \"!\"
  fun text(s: String): String =>
    t + s
actor A
  new create(n: U64) =>
    None
  be take(e: Env, a: U64, b: U64, c: U64, d: U64, s: String) =>
    let o: C = C(s)
    e.out.print(o.text(d.string()))
actor Main
  new create(env: Env) =>
    let a: A = A(5)
    a.take(env, 1, 2, 3, 4, \"x\")
    a.take(env, 1, 2, 3, 5, \"y\")
";

const ARGUMENTS_TURNS: [Turn; 3] = [
    (1, 30, (29, Outcome::Skipped), ((3, 4, 3, 0), None)),
    (2, 86, (85, Outcome::Skipped), ((3, 6, 2, 0), None)),
    (0, 3, (2, Outcome::Skipped), ((3, 6, 0, 2), None)),
];

#[test]
fn many_arguments(rt: HostRuntime) {
    let programs: [Program; 1] = [(ARGUMENTS, &ARGUMENTS_TURNS, &[b"x!4", b"y!5"])];
    assert_eq!(rt; wrong_program(rt.alloc(), &programs), None);
}

const CHAIN_TURNS: [Turn; 3] = [
    (1, 54, (53, Outcome::Skipped), ((3, 7, 2, 0), None)),
    (2, 53, (52, Outcome::Skipped), ((3, 7, 1, 0), None)),
    (0, 2, (1, Outcome::Skipped), ((3, 7, 0, 1), None)),
];

#[test]
fn chain(rt: HostRuntime) {
    let programs: [Program; 1] = [(CHAIN, &CHAIN_TURNS, &[b"3"])];
    assert_eq!(rt; wrong_program(rt.alloc(), &programs), None);
}
