//! The tokens of a source that has tokens.
ghost use Rattle.std.specs.Prelude.{◌≤◌, IfOk, length};
ghost use Rattle.pc_lex.specs.Pieces.{TokenList, bytes_limit};
ghost use Rattle.pc_places.specs.Text.{HasTokens};

use pc_base::List;
use pc_lex::{LexFault, lex};
use pc_token::Token;
use std::alloc::{AllocError, Global};

/// The tokens of a source that has tokens.
pub fn tokens_of(alloc: Global, source: &[u8]) -> Result<List<Token>, AllocError>
    requires short { length source.now ≤ bytes_limit }
    requires has { HasTokens source.now }
    ensures { IfOk result (TokenList source.now) }
{
    match lex(alloc, source) {
        Ok(tokens) => Ok(tokens),
        Err(LexFault::Memory) => Err(AllocError),
        Err(LexFault::BadByte(_)) => unreachable!(),
        Err(LexFault::Unclosed(_)) => unreachable!(),
        Err(LexFault::BadNumber(_)) => unreachable!(),
        Err(LexFault::BadEscape(_)) => unreachable!(),
        Err(LexFault::TooMany(_)) => unreachable!(),
    }
}
