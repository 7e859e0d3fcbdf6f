//! Why an exercise can't be used.

use std::alloc::{AllocError, AllocFailed};
use thiserror::Error;

/// What a line of an exercise should be.
#[derive(Clone, Copy, PartialEq, Eq, Debug, Error)]
pub enum Expected {
    #[error("expected `EXPR => EXPR`, `EXPR is error NAME`, `for n in ..`, `with FEATURE` or `without FEATURE`")]
    Test,
    #[error("expected the name of a fault after `is error`, as `type`")]
    FaultName,
    #[error("expected `for n in 1, 2, 4 .. 64: EXPR work <= BOUND`, or `depth` in place of `work`")]
    For,
    #[error("expected `A, B .. C` that steps or `A, B, C .. D` that doubles, at most 1,000 numbers")]
    Row,
    #[error("expected a bound of n in whole numbers, with + - * / ^, bits(..), log2(..) and parentheses")]
    Bound,
    #[error("expected a whole number below 2^63")]
    Number,
    #[error("expected one name, word or sign of the language, as `rep`, `if` or `++`")]
    Feature,
    #[error("expected `line_work N`, `session_work N` or `elements N`")]
    Limit,
    #[error("expected a line with three backquotes that ends the block")]
    BlockEnd,
}

/// Why an exercise can't be used.
#[derive(Clone, Copy, PartialEq, Eq, Debug, Error)]
pub enum ExerciseFault {
    /// The line with this number, counted from 1, isn't as expected.
    #[error("line {line}: {expected}")]
    Line { line: u64, expected: Expected },
    #[error("it has no tests")]
    NoTest,
    #[error("out of memory")]
    Memory,
}

impl From<AllocError> for ExerciseFault {
    fn from(_error: AllocError) -> Self {
        ExerciseFault::Memory
    }
}

impl<T: Drop> From<AllocFailed<T>> for ExerciseFault {
    fn from(_error: AllocFailed<T>) -> Self {
        ExerciseFault::Memory
    }
}

/// Why a line isn't as expected, or out of memory.
#[derive(Clone, Copy)]
pub enum LineFault {
    Expected(Expected),
    Memory,
}

impl LineFault {
    /// The fault of the line with this number.
    pub fn at(self, line: u64) -> ExerciseFault {
        match self {
            LineFault::Expected(expected) => ExerciseFault::Line { line, expected },
            LineFault::Memory => ExerciseFault::Memory,
        }
    }
}

impl From<AllocError> for LineFault {
    fn from(_error: AllocError) -> Self {
        LineFault::Memory
    }
}

impl<T: Drop> From<AllocFailed<T>> for LineFault {
    fn from(_error: AllocFailed<T>) -> Self {
        LineFault::Memory
    }
}
