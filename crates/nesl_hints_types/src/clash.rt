//! Why a walk over a form ends.

use nesl_lex::token::Span;
use nesl_syntax_tree::tree::{Operator, Prefix};
use std::alloc::{AllocError, AllocFailed};

/// What a part of a form is to its whole.
#[derive(Clone, Copy)]
pub enum Role {
    /// The left side of an operator.
    Left(Operator),
    /// The right side of an operator.
    Right(Operator),
    /// What follows a prefix operator.
    Operand(Prefix),
    /// The argument of the function that the walk blames.
    Argument,
    /// One of several arguments of the function that the walk blames, and the number of those before it.
    OneArgument(u64),
    /// The sequence before an index.
    Indexed,
    /// A number in brackets.
    Index,
    /// What follows `if`.
    Test,
    /// What follows `else`.
    Otherwise,
    /// An element of a sequence.
    Element,
    /// An end of a range, or its stride.
    Bound,
    /// What a pattern of an apply-to-each is in.
    Drawn,
    /// A filter of an apply-to-each.
    Filter,
    /// A pattern that is a pair.
    Pair,
    /// A pattern that is a record of the datatype that the walk blames.
    Record,
    /// The parameter of a function, as its signature has it.
    Parameter,
    /// The body of a function, as its signature has it.
    Body,
    /// The body of a function, as calls within it have it.
    OwnBody,
}

/// A part of a form, and the place of its type.
#[derive(Clone, Copy)]
pub struct Typed {
    pub span: Span,
    pub ty: usize,
}

impl Typed {
    pub(crate) fn new(span: Span, ty: usize) -> Typed {
        Typed { span, ty }
    }
}

/// A part of a form that doesn't fit.
#[derive(Clone, Copy)]
pub struct Clash {
    /// What the part is to its whole.
    pub role: Role,
    pub found: Typed,
    /// What it doesn't fit to.
    pub second: Option<Typed>,
    /// The place of the type that it should have.
    pub wanted: usize,
}

/// What there isn't enough of.
#[derive(Clone, Copy)]
pub enum Shortage {
    /// Steps: the form is too large to be looked at.
    Steps,
    /// Memory.
    Memory,
}

/// Why a walk over a form ends.
#[derive(Clone, Copy)]
pub enum Halt {
    /// A part doesn't fit.
    Found(Clash),
    /// There isn't enough of something.
    Short(Shortage),
}

impl From<AllocError> for Shortage {
    fn from(_error: AllocError) -> Self {
        Shortage::Memory
    }
}

impl<T: Drop> From<AllocFailed<T>> for Shortage {
    fn from(_error: AllocFailed<T>) -> Self {
        Shortage::Memory
    }
}

impl From<Shortage> for Halt {
    fn from(shortage: Shortage) -> Self {
        Halt::Short(shortage)
    }
}

impl<T: Drop> From<AllocFailed<T>> for Halt {
    fn from(_error: AllocFailed<T>) -> Self {
        Halt::Short(Shortage::Memory)
    }
}
