//! How many levels a file may open.

use pc_expr::LEVELS;

/// How many levels may be opened inside a body or a field's value, which are at level 1.
pub const INNER_LEVELS: u16 = LEVELS - 1;
