//! The laws of reading, as calls that do nothing.
ghost use Rattle.pc_grammar.specs.Laws.{OneFileAnswer, SeqIsOne, SeqOneAnswer, SeqReadsRight, SeqRefusesRight, SeqDeepRight, ExprIsOne, ExprOneAnswer, ExprReadsRight, ExprRefusesRight, ExprDeepRight, InfixOneAnswer, InfixReadsRight, InfixRefusesRight, InfixDeepRight, FileReadsRight, FileRefusesRight, FileDeepRight, FileIsOne, FileIsAnswered};

/// Reading a sequence with one token of lookahead is right. What is read is what the tokens consumed spell, within the
/// levels, and the next token does not continue it. If a token is unexpected, those before it begin a sequence within
/// the levels but spell none, and with it none begins. If a token opens a level too many, those before it begin a
/// sequence within the levels, and with it only deeper ones begin. A list of tokens spells at most one sequence, and at
/// most one of these three answers holds for it.
pub fn sequences_are_read()
    ensures reads { SeqReadsRight }
    ensures refuses { SeqRefusesRight }
    ensures deep { SeqDeepRight }
    ensures one { SeqIsOne }
    ensures answer { SeqOneAnswer }
{}

/// The same for an expression.
pub fn expressions_are_read()
    ensures reads { ExprReadsRight }
    ensures refuses { ExprRefusesRight }
    ensures deep { ExprDeepRight }
    ensures one { ExprIsOne }
    ensures answer { ExprOneAnswer }
{}

/// The same for an expression without `=`.
pub fn infixes_are_read()
    ensures reads { InfixReadsRight }
    ensures refuses { InfixRefusesRight }
    ensures deep { InfixDeepRight }
    ensures answer { InfixOneAnswer }
{}

/// The same for a file. With n levels in a body or a value a file has n + 1, since these are at level 1.
///
/// For a whole list of tokens, within 200 levels, reading gives the answer: the file that it spells, or the tokens from
/// the first one on with which no file begins or which opens a level too many. A token after a file's `End` is
/// unexpected. At most one answer holds for any list. If a list ends before its file does, reading gives none of them.
pub fn files_are_read()
    ensures reads { FileReadsRight }
    ensures refuses { FileRefusesRight }
    ensures deep { FileDeepRight }
    ensures one { FileIsOne }
    ensures answered { FileIsAnswered }
    ensures answer { OneFileAnswer }
{}
