//! Expressions whose names have been resolved.

use nesl_builtins::Builtin;
use nesl_lex::token::Span;

/// A step from a value to a part of it.
#[derive(Clone, Copy)]
pub enum Step {
    /// To the left part of a pair.
    Left,
    /// To the right part of a pair.
    Right,
    /// To what a record holds.
    Inside,
}

/// An expression whose names have been resolved, each node with its span.
///
/// Local names are in frames. The body of a called function has one frame with one value, its argument; a `let` has
/// a frame with the values of its bindings so far; an apply-to-each has one with the elements of its sequences at a
/// place.
#[derive(Drop)]
pub enum Code {
    Number {
        span: Span,
        value: i64,
    },
    Truth {
        span: Span,
        value: bool,
    },
    Character {
        span: Span,
        value: u8,
    },
    Text {
        span: Span,
        bytes: Vec<u8>,
    },
    /// A local name: how many frames up, at that index of the frame, and from there by these steps.
    Local {
        span: Span,
        up: usize,
        index: usize,
        steps: Vec<Step>,
    },
    /// A top-level name, by its place.
    Top {
        span: Span,
        place: usize,
    },
    /// A name that has no place yet (only in expressions without a type): looked up when it is run.
    Named {
        span: Span,
        name: Vec<u8>,
    },
    Pair {
        span: Span,
        left: Box<Code>,
        right: Box<Code>,
    },
    /// A built-in function of one value.
    Apply {
        span: Span,
        function: Builtin,
        argument: Box<Code>,
    },
    /// An infix operator, an index or a range: it is applied to the pair of the two, and that pair is no node.
    ApplyTwo {
        span: Span,
        function: Builtin,
        left: Box<Code>,
        right: Box<Code>,
    },
    /// A range with a stride: applied to (first, (second, third)).
    ApplyThree {
        span: Span,
        function: Builtin,
        first: Box<Code>,
        second: Box<Code>,
        third: Box<Code>,
    },
    /// A user's function or a datatype, by its place.
    Call {
        span: Span,
        place: usize,
        argument: Box<Code>,
    },
    /// A user's function or a datatype, by a name that has no place yet.
    CallNamed {
        span: Span,
        name: Vec<u8>,
        argument: Box<Code>,
    },
    Choice {
        span: Span,
        test: Box<Code>,
        yes: Box<Code>,
        no: Box<Code>,
    },
    Sequence {
        span: Span,
        parts: Vec<Code>,
    },
    Empty {
        span: Span,
    },
    Let {
        span: Span,
        bindings: Vec<Code>,
        body: Box<Code>,
    },
    Each {
        span: Span,
        sources: Vec<Code>,
        body: Box<Code>,
    },
    FilteredEach {
        span: Span,
        sources: Vec<Code>,
        body: Box<Code>,
        filter: Box<Code>,
    },
}
