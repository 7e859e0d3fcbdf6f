//! Long expressions, which are looked through before their equations are made.

use nesl_syntax_tree::tree::Exp;

/// From how many bytes on an expression is long.
const LONG: usize = 512;

/// Whether an expression is long.
pub fn is_long(exp: &Exp) -> bool {
    exp.span.end.saturating_sub(exp.span.start) >= LONG
}
