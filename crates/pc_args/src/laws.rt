//! Which words are certain to be taken.
ghost use Rattle.pc_args.specs.Forms.{WrittenFormsAreTaken};
ghost use Rattle.pc_args.specs.Refused.{OnlyRefusedAskForNothing};

/// The words of each command's form, with names that are neither empty nor begin with `-`, are taken, and ask for exactly
/// that command.
pub fn written_forms_are_taken()
    ensures { WrittenFormsAreTaken }
{}

/// Words ask for nothing iff they are refused, that is, the command line does not take them and reports a fault.
pub fn only_refused_words_ask_for_nothing()
    ensures { OnlyRefusedAskForNothing }
{}
