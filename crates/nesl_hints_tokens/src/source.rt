//! The bytes of a text that a span names.

use nesl_lex::token::Span;

/// The most bytes of a text that a sentence repeats.
const MOST_QUOTED: usize = 32;

/// The bytes of a span, as far as the text has them.
pub fn bytes_of(text: &[u8], span: Span) -> &[u8] {
    let end = span.end.min(text.len());
    let start = span.start.min(end);
    &text[start..end]
}

/// The first bytes of a span: as many as a sentence repeats.
pub fn quoted(text: &[u8], span: Span) -> &[u8] {
    let whole = bytes_of(text, span);
    &whole[..whole.len().min(MOST_QUOTED)]
}
