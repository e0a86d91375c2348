//! Laws of the definitions. Each call does nothing, and its contract is the law.
ghost use Rattle.pc_file_spec.specs.Example.{FirstStands, FourthStands, SecondStands, ThirdIsRefused};
ghost use Rattle.pc_file_spec.specs.Laws.{BodiesAreTaken, BodiesAreThere, BoundIsEnough, CoreOrFault, CoresAreSmall, MembersDiffer, NotBoth, OneCore, OneFault, StandsIsFormed, TextsAreThere, TraitsHaveNoBodies, TraitsInherit};

/// The cores of three small files are as written out by hand, and are formed: traits that take over methods from each
/// other, one method for each name, and an added `create`, with the local of an initial value; written constructors,
/// each with that local after its parameters; and bodies in traits, which a class and an actor take over. In a file in
/// which a name in a body is unknown, that is the fault.
pub fn small_files_stand()
    ensures first { FirstStands }
    ensures second { SecondStands }
    ensures third { ThirdIsRefused }
    ensures fourth { FourthStands }
{}

/// A file whose names have no fault has a core or a fault of its members; it has at most one of each, and not both.
pub fn cores_are_one()
    ensures some { CoreOrFault }
    ensures core { OneCore }
    ensures fault { OneFault }
    ensures apart { NotBoth }
{}

/// The texts of a file differ, and what its members need is among them: the names of fields and methods, those after a
/// `.`, and the built-in ones.
pub fn texts_are_there()
    ensures { TextsAreThere }
{}

/// If the names of a file have no fault: a trait has members with exactly the names that its own methods and those of
/// all traits above it have; the bound on the length of a chain of `is` makes no difference; and the names of an
/// entity's fields and members differ, if its fields are only where they are allowed.
pub fn traits_inherit()
    ensures names { TraitsInherit }
    ensures bound { BoundIsEnough }
    ensures differ { MembersDiffer }
{}

/// If the names of a file have no fault: a member of a trait or an interface has no body, and is a method of its own or
/// of what is above it. A written member of another entity is a method of its own, or one with a body that is written
/// above it and whose name is not one of the entity's own; and none of these is left out.
pub fn members_come_from_above()
    ensures traits { TraitsHaveNoBodies }
    ensures taken { BodiesAreTaken }
    ensures there { BodiesAreThere }
{}

/// The core of a file is formed if the file's tree is one that a text spells: the names in its bodies are in the order
/// of the text, and its fields, methods and bodies only where they are allowed.
pub fn cores_are_formed()
    ensures { StandsIsFormed }
{}

/// The core of a file has at most 640,000 slots and 200,000 nodes: the file has at most 10,000 methods, each with at
/// most 64 slots.
pub fn cores_are_small()
    ensures { CoresAreSmall }
{}
