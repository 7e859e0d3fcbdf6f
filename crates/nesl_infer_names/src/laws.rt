//! A law of unknown names.

ghost use Rattle.nesl_infer_names.specs.Order.{UnknownInOrder};

use nesl_syntax_tree::spans_in_order;

/// The unknown names of a line are listed in the order of its text: the first of the list is the one that begins first.
pub fn unknown_in_order()
    ensures { UnknownInOrder }
{
    spans_in_order();
}
