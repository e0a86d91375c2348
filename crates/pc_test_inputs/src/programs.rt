//! Whole programs of the test crates.

/// Makes one object, and holds it.
pub const ONE_OBJECT: &[u8] =
    b"class C\nactor Main\n  new create(env: Env) =>\n    let a: C iso = C\n";

/// Writes a line.
pub const HELLO: &[u8] = b"actor Main\n  new create(env: Env) =>\n    env.out.print(\"hi\")\n";

/// A list that is made whole inside a `recover` and sent to another actor, which prints its sum.
pub const CHAIN: &[u8] = b"\
trait Chain
  fun sum(): U64
class Stop is Chain
  new create() => None
  fun sum(): U64 => 0
class Link is Chain
  let _head: U64
  let _tail: Chain
  new create(head: U64, tail: Chain) =>
    _head = head
    _tail = tail
  fun sum(): U64 => _head + _tail.sum()
actor Reader
  let _out: OutStream
  new create(out: OutStream) => _out = out
  be read(list: Chain val) => _out.print(list.sum().string())
actor Main
  new create(env: Env) =>
    let list: Chain iso = recover Link(1, Link(2, Stop)) end
    Reader(env.out).read(consume list)
";

/// Two actors that read one object.
pub const READERS: &[u8] = b"\
class C
  let n: U64 = 5
actor R
  let _out: OutStream
  let _c: C val
  new create(out: OutStream, c: C val) =>
    _out = out
    _c = c
  be read() => _out.print(_c.n.string())
actor Main
  new create(env: Env) =>
    let c: C val = C
    let a: R = R(env.out, c)
    let b: R = R(env.out, c)
    a.read()
    b.read()
";

/// Writes one text, and then doubles another until it is too long.
pub const DOUBLES: &[u8] = b"\
actor Main
  new create(env: Env) =>
    env.out.print(\"go\")
    var s: String = \"ab\"
    while true do s = s + s end
";
