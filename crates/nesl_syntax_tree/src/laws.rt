// Laws of a line's nodes.

ghost use Rattle.nesl_syntax_tree.specs.Laws.{OrderlySpans};

use nesl_lex::tokens_in_order;

/// The nodes of a line lie within it, one after another, and so do the parts within each node.
pub fn spans_in_order()
    ensures { OrderlySpans }
{
    tokens_in_order();
}
