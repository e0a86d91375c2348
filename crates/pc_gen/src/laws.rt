//! The text of what is generated.
ghost use Rattle.std.specs.Prelude.{◌≡◌, ℕ};
ghost use Rattle.pc_print.specs.Printing.{printed};
ghost use Rattle.pc_gen.specs.Generated.{generated_text};
ghost use Rattle.pc_gen.specs.Program.{program};

/// The printed text of the tree of a generated program is the one that is written out line by line.
pub fn generated_is_printed()
    ensures { (seed size : ℕ) → printed (program seed size) ≡ generated_text seed size }
{}
