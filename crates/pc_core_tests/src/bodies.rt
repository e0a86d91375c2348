//! What is in the nodes of bodies that `places` does not show: the values of numbers, the numbers of names, an operator, and
//! the capability of a `recover`. All else of these bodies, and of long ones, is in `rows/nodes.py`.
use pc_caps::Cap;
use pc_core::{Core, NodeKind};
use pc_test_inputs::{Wrong, core_of};
use pc_tree::Op;
use std::alloc::Global;

/// Classes with constructors and without one, an actor, a primitive, a trait, and the class `E` with the bodies. The texts
/// have the numbers 3 `apply`, 5 `f`, 7 `m` and 10 `g`.
const FILE: &[u8] = b"\
class C
  new create(n: U64) => None
  new make(c: C) => None
actor A
  new create() => None
primitive P
trait T
class E
  var f: U64 = 7
  fun go() => None
  new create(env: U64) =>
let c = C; let d = C(1)
C.make(d); c(2); P(); A
  fun m(x: U64) =>
if f then m(x) elseif x then f.g = consume x end
  fun k(): U64 =>
var y = recover iso 1 + 2 + 3 end; y = (4; y is y); this.f.m(y)
  fun j(): U64 => 7
class D
  var f: U64 = 7
actor Main
  new create(env: Env) => None
";

/// What a node has inside.
#[derive(Clone, Copy, PartialEq, Eq)]
enum Inside {
    /// The value of a number.
    Number(u64),
    /// The number of a name.
    Name(u32),
    /// A sum.
    Sum,
    /// A `recover iso`.
    Iso,
    /// A comparison by `is`, and not by `isnt`.
    Is,
}

fn inside_of(kind: &NodeKind) -> Option<Inside> {
    match kind {
        NodeKind::Number(value) => Some(Inside::Number(*value)),
        NodeKind::Field(name) | NodeKind::SetField(name) | NodeKind::Call(name) => {
            Some(Inside::Name(*name))
        }
        NodeKind::Binary(Op::Add) => Some(Inside::Sum),
        NodeKind::Recover(Some(Cap::Iso)) => Some(Inside::Iso),
        NodeKind::Same(true) => Some(Inside::Is),
        _ => None,
    }
}

/// A node by its number, and what it has inside.
type Row = (u32, Inside);

const ROWS: [Row; 22] = [
    (13, Inside::Number(7)),
    (15, Inside::Name(5)),
    (18, Inside::Number(1)),
    (23, Inside::Number(2)),
    (25, Inside::Name(3)),
    (31, Inside::Name(5)),
    (35, Inside::Name(7)),
    (41, Inside::Name(5)),
    (42, Inside::Name(10)),
    (52, Inside::Number(1)),
    (53, Inside::Number(2)),
    (54, Inside::Sum),
    (55, Inside::Number(3)),
    (56, Inside::Sum),
    (58, Inside::Iso),
    (60, Inside::Number(4)),
    (63, Inside::Is),
    (68, Inside::Name(5)),
    (69, Inside::Name(7)),
    (72, Inside::Number(7)),
    (75, Inside::Number(7)),
    (77, Inside::Name(5)),
];

fn has_inside(core: &Core, row: Row) -> bool {
    match core.nodes().get(row.0 as usize) {
        Some(node) => inside_of(&node.kind) == Some(row.1),
        None => false,
    }
}

// The number of the first of these nodes that has something else inside.
fn other_node(core: &Core, rows: &[Row]) -> Option<u32> {
    for row in rows {
        if !has_inside(core, *row) {
            return Some(row.0);
        }
    }
    None
}

// The same of the core of the file.
fn other_in_file(alloc: Global) -> Result<Option<u32>, Wrong> {
    let core = core_of(alloc, FILE)?;
    Ok(other_node(&core, &ROWS))
}

#[test]
fn nodes_have_this_inside(rt: HostRuntime) {
    assert_eq!(rt; other_in_file(rt.alloc()), Ok(None));
}
