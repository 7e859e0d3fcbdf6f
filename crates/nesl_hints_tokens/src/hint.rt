//! What a person reads of a wrong line, beside its reply.

use nesl_lex::token::Span;

/// What a person reads of a wrong line, beside its reply.
#[derive(Drop)]
pub struct Hint {
    /// Where the line is wrong: bytes of its whole form, the parts before it included.
    pub place: Span,
    /// What else has to do with it, as the bracket that is still open.
    pub second: Option<Span>,
    /// Why it is wrong, and what to write: one line, without its end.
    pub sentence: Vec<u8>,
}

impl Hint {
    ghost use Rattle.nesl_hints_tokens.specs.Within.{IsWithin};

    /// This hint, cut down to a text of `len` bytes.
    pub fn within(self, len: usize) -> Hint
        ensures { IsWithin len result }
    {
        Hint {
            place: span_within(self.place, len),
            second: match self.second {
                Some(span) => Some(span_within(span, len)),
                None => None,
            },
            sentence: self.sentence,
        }
    }
}

ghost use Rattle.nesl_hints_tokens.specs.Within.{IsSpanWithin};

// The bytes of a span that a text of `len` bytes has.
fn span_within(span: Span, len: usize) -> Span
    ensures { IsSpanWithin len result }
{
    let end = span.end.min(len);
    Span {
        start: span.start.min(end),
        end,
    }
}
