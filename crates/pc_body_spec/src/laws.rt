//! Laws of the definitions. Each call does nothing, and its contract is the law.
ghost use Rattle.pc_body_spec.specs.Example.{FirstStands, SecondStands, ThirdStands};
ghost use Rattle.pc_body_spec.specs.Laws.{AddedBodiesAreScoped, AddedBodiesStand, AddedLocalsAreDefinedOnce, AddedMethodsStand, BodiesAreScoped, BodiesStand, FirstIsLeast, IsDefinedAsOften, IsPostOrder, IsScoped, IsShaped, LocalsAreDefined, LocalsAreDefinedOnce, LocalsHaveSlots, MethodsStand, NodesHaveChildren, NothingIsMissing, WrittenTypesAreThere};

/// The nodes of any rose are appended to the existing ones, all of its method and in post-order, and its own node is
/// the last.
pub fn nodes_stand_in_post_order()
    ensures { IsPostOrder }
{}

/// The elaboration of an expression at some depth has that depth, each of its nodes has as many children as its kind
/// requires, and each child has its parent's depth, or one more in a `recover`.
pub fn children_are_shaped()
    ensures { IsShaped }
{}

/// The elaboration of an expression refers to no locals except those that are visible, and that of a body to none
/// except its parameters and those it defines. A definition is only ever an item of a sequence, and what it defines is
/// visible only to the later items of that sequence.
pub fn locals_are_visible()
    ensures expressions { IsScoped }
    ensures bodies { BodiesAreScoped }
    ensures added { AddedBodiesAreScoped }
{}

/// If an expression has no fault, each number in its elaboration refers to what it should: None or a primitive of the
/// program, a constructor of a class or of an actor, a text; and no node is there for a missing name.
pub fn names_are_there()
    ensures { NothingIsMissing }
{}

/// When a rose with the right shape is appended to some nodes, each new node has as many children as its kind requires,
/// and each of them is in the list with its parent's depth, or one more in a `recover`.
pub fn nodes_have_children()
    ensures { NodesHaveChildren }
{}

/// If a body has no fault, its nodes are appended in post-order to the existing ones; they are of its method; the body
/// is the last of them and the only one of its kind; each has its children; and everything they refer to exists. The
/// same holds for the body of an added `create`.
pub fn bodies_stand()
    ensures written { BodiesStand }
    ensures added { AddedBodiesStand }
{}

/// Three small bodies elaborate to nodes that are written out by hand: with a constructor; with calls, an `elseif` and
/// a write to a field; and with operators, a local and a `recover`.
pub fn small_bodies_stand()
    ensures first { FirstStands }
    ensures second { SecondStands }
    ensures third { ThirdStands }
{}

/// When a rose that refers only to visible locals is appended, each node that uses a local with a slot not visible from
/// the start comes after a definition of that slot, which is an item of a sequence, and before that sequence: it is in
/// a later item. And each definition is an item of a sequence.
pub fn locals_are_defined()
    ensures { LocalsAreDefined }
{}

/// If the names of a body are in the order of the text, as they are in a tree that a text spells, the first of its
/// faults has the smallest start, and each local has a slot of its own, by the place of its name.
pub fn names_stand_in_order()
    ensures first { FirstIsLeast }
    ensures slots { LocalsHaveSlots }
{}

/// If an expression has no fault, its elaboration has as many definitions as it has locals, also counting only those
/// whose slot and depth pass a test.
pub fn locals_are_defined_as_often()
    ensures { IsDefinedAsOften }
{}

/// In a body without a fault, whose names are in the order of the text, each local is defined by exactly one node, with
/// the slot given by its place among the locals, at its depth. The same holds for the body of an added `create`.
pub fn locals_are_defined_once()
    ensures written { LocalsAreDefinedOnce }
    ensures added { AddedLocalsAreDefinedOnce }
{}

/// The type that is written for a local names an entity of the program, unless it is a fault.
pub fn written_types_are_there()
    ensures { WrittenTypesAreThere }
{}

/// A method without a fault has at most 64 slots, and its body comes after the nodes of the methods before it. The same
/// holds for an added `create`.
pub fn methods_stand()
    ensures written { MethodsStand }
    ensures added { AddedMethodsStand }
{}
