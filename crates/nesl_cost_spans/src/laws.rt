//! The law of spans.

ghost use Rattle.nesl_cost_spans.specs.Names.{SpansDiffer};

use nesl_lex::tokens_in_order;

/// No two nodes of an expression have the same span.
pub fn spans_differ()
    ensures { SpansDiffer }
{
    tokens_in_order();
}
