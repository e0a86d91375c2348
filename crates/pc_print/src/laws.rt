//! What is printed can be read again.
ghost use Rattle.pc_print.specs.Examples.{MainIsPrinted};
ghost use Rattle.pc_print.specs.Laws.{PrintingIsRead};

/// The printed text of a file that the tokens of some text spell has tokens, and these spell the same file up to spans.
pub fn printed_files_are_read()
    ensures { PrintingIsRead }
{}

/// The printed text of a file with one actor is the one written out by hand.
pub fn a_small_file_is_printed()
    ensures { MainIsPrinted }
{}
