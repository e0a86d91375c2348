//! The tokens and the tree of a text.
ghost use Rattle.std.specs.Prelude.{IfOk};
ghost use Rattle.pc_base.specs.Lists.{Ascends};
ghost use Rattle.pc_elab.specs.Cores.{IsSpelledFile};
ghost use Rattle.pc_expr.specs.Gives.{EndsWithEnd};
ghost use Rattle.pc_text_order.specs.Laws.{starts};
ghost use Rattle.pc_tree.specs.View.{file_view};

use crate::reasons::Wrong;
use pc_base::List;
use pc_lex::{Token, lex};
use pc_parse::file;
use pc_text_order::tokens_are_in_order;
use pc_tree::File;
use std::alloc::Global;

/// The tokens of a text.
pub fn tokens_of(alloc: Global, text: &[u8]) -> Result<List<Token>, Wrong>
    ensures end { IfOk result EndsWithEnd }
    ensures ascend { IfOk result (λ tokens. Ascends (starts tokens)) }
{
    if text.len() > 1_048_576 {
        return Err(Wrong::PastLimit);
    }
    tokens_are_in_order();
    let tokens = lex(alloc, text)?;
    Ok(tokens)
}

/// The tree of a text.
pub fn tree_of(alloc: Global, text: &[u8]) -> Result<File, Wrong>
    ensures { IfOk result (λ tree. IsSpelledFile (file_view tree)) }
{
    let tokens = tokens_of(alloc, text)?;
    let tree = file(alloc, tokens.as_slice())?;
    Ok(tree)
}
