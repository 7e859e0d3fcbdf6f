//! Spans in half the room.
ghost use Rattle.std.specs.Prelude.{◌≡◌, IfOk};

use nesl_lex::token::Span;
use std::alloc::AllocError;
use std::marker::Model;

/// A span whose ends take four bytes each, as those of any line do. Contracts see it as the span.
#[derive(Drop)]
pub struct ShortSpan {
    start: u32,
    end: u32,
}

impl Model for ShortSpan {
    ghost use Rattle.std.specs.Coded.{codes};
    ghost use Rattle.nesl_lex.specs.declared.token.Span.{Span};
    ghost use Rattle.nesl_lex.specs.contracts.token.Span as span;

    ghost Value = { Span };

    ghost coded = { Prim.hlevel (codes, span.the_row.coded) };

    ghost view = { λ a. record { start = a.start; end = a.end } };
}

impl ShortSpan {
    /// The span. One that doesn't fit is refused as if memory had run out.
    pub(crate) fn new(span: Span) -> Result<ShortSpan, AllocError>
        ensures { IfOk result (λ s. s ≡ span) }
    {
        let Ok(start) = u32::try_from(span.start) else {
            return Err(AllocError);
        };
        let Ok(end) = u32::try_from(span.end) else {
            return Err(AllocError);
        };
        Ok(ShortSpan { start, end })
    }

    /// The span.
    #[inline(always)]
    pub fn whole(&self) -> Span
        ensures { result ≡ self.now }
    {
        Span {
            start: self.start as usize,
            end: self.end as usize,
        }
    }
}
