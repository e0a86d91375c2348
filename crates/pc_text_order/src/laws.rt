//! The laws of the order of tokens and names, as calls that do nothing.
ghost use Rattle.pc_text_order.specs.Laws.{BodiesAscend, DeclarationsAscend, TokensAscend, TokensEnd};

/// Each token of a text starts before the later ones, and the last one is `End`.
pub fn tokens_are_in_order()
    ensures ascend { TokensAscend }
    ensures end { TokensEnd }
{}

/// If tokens spell a file, and each of them starts before the later ones, then everything in the file that can be at
/// fault is in the order of the text: the names, types and texts of a body, preceded in a constructor by those of the
/// initial values; and the names and types of an entity's declarations.
pub fn names_are_in_order()
    ensures bodies { BodiesAscend }
    ensures declarations { DeclarationsAscend }
{}
