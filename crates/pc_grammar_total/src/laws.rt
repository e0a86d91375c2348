//! The laws of answers, as calls that do nothing.
ghost use Rattle.pc_grammar_total.specs.Laws.{SeqHasOneAnswer, SeqDeepOpens, SeqOpenersGoDeep, ExprHasOneAnswer, ExprDeepOpens, ExprOpenersGoDeep, InfixHasOneAnswer, InfixDeepOpens, InfixOpenersGoDeep, FileHasOneAnswer, FileDeepOpens, FileOpenersGoDeep};

/// For every list of tokens that ends with `End`, exactly one of three things holds, whatever number of levels may be
/// opened: the tokens up to some place spell a sequence, within the levels, and the next one does not continue it; or a
/// token is unexpected; or a token is too deep. That token is the `End` or one before it. The tokens that are too deep
/// in some list are exactly those that open a level: `(`, `if`, `while`, `recover`, `not` and `=`.
pub fn sequences_are_answered()
    ensures answered { SeqHasOneAnswer }
    ensures deep { SeqDeepOpens }
    ensures openers { SeqOpenersGoDeep }
{}

/// The same for an expression.
pub fn expressions_are_answered()
    ensures answered { ExprHasOneAnswer }
    ensures deep { ExprDeepOpens }
    ensures openers { ExprOpenersGoDeep }
{}

/// The same for an expression without `=`; but each token that opens a level is too deep in some list only if at least
/// one level may be opened, since an `=` occurs there only inside another level.
pub fn infixes_are_answered()
    ensures answered { InfixHasOneAnswer }
    ensures deep { InfixDeepOpens }
    ensures openers { InfixOpenersGoDeep }
{}

/// For every list of tokens that ends with `End`, exactly one of three things holds, within 200 levels: it spells a
/// file; or a token is unexpected; or a token is too deep. Here too the tokens that are too deep in some list are
/// exactly those that open a level.
pub fn files_are_answered()
    ensures answered { FileHasOneAnswer }
    ensures deep { FileDeepOpens }
    ensures openers { FileOpenersGoDeep }
{}
