//! Facts about the program. Each call does nothing, and its contract is the fact.
ghost use Rattle.pc_core.specs.Formed.{Formed};
ghost use Rattle.pc_rules.specs.Example as example;
ghost use Rattle.pc_valid.specs.Valid.{Valid};

/// The core of `class C` and a `Main` with `let a: C iso = C` is formed.
pub fn the_core_is_formed()
    ensures { Formed example.four_slots }
{}

/// Its derivation is valid.
pub fn the_derivation_is_valid()
    ensures { Valid example.four_slots example.derivation }
{}
