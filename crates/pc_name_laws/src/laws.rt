//! The laws of the faults of names, as calls that do nothing.
ghost use Rattle.pc_name_laws.specs.Laws.{AddedBodiesAreListed, BodiesAreListed, CountsAreListed, DeclarationsAreListed, EntitiesAreListed, FaultIsTold, MainsAreListed, MissingIsTold, ToldIsLeast, ToldOfTextIsLeast, UnknownIsMissing};

/// What can be at fault is stated one thing at a time, by what names mean, and without the walk that looks for it. The
/// lists of faults of which the passes report the first have exactly these faults: of the names of entities, of the
/// declarations of an entity, of the number of methods, of `Main`, and of bodies, written and added.
pub fn faults_are_listed()
    ensures entities { EntitiesAreListed }
    ensures declarations { DeclarationsAreListed }
    ensures counts { CountsAreListed }
    ensures mains { MainsAreListed }
    ensures bodies { BodiesAreListed }
    ensures added { AddedBodiesAreListed }
{}

/// Of all faults of a file that tokens spell in the order of a text, the reported one comes first: there is none in an
/// earlier turn, and every other one in its own turn starts after it. If the file has a fault, one is reported.
pub fn told_is_least()
    ensures tokens { ToldIsLeast }
    ensures text { ToldOfTextIsLeast }
    ensures some { FaultIsTold }
{}

/// A name is reported as unknown only if it has no meaning. If a name has no meaning, a fault is reported that is not
/// after it.
pub fn unknown_is_missing()
    ensures only { UnknownIsMissing }
    ensures told { MissingIsTold }
{}
