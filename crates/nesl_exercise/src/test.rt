//! What a test asks.

use crate::bound::Op;
use crate::measure::Measure;

/// Whether a submission has to have a feature, or must not have it.
#[derive(Clone, Copy)]
pub enum Wish {
    With,
    Without,
}

/// Whether students see a test.
#[derive(Clone, Copy)]
pub enum Audience {
    Shown,
    Hidden,
}

/// What a test asks of a submission. Expressions are without their `;`.
#[derive(Drop)]
pub enum Check {
    /// The expression evaluates to the value of another one. The type of the value is written so, unless it is empty.
    Value {
        exp: Vec<u8>,
        expected: Vec<u8>,
        ty: Vec<u8>,
    },
    /// The expression is refused with the fault of this name.
    Fault {
        exp: Vec<u8>,
        name: Vec<u8>,
    },
    /// The expression costs at most the bound, at each `n` of the row.
    Cost {
        exp: Vec<u8>,
        row: Vec<u64>,
        measure: Measure,
        bound: Vec<Op>,
    },
    /// The feature is in a form of the submission, or is in none: a name in letters of any size, a word or a sign.
    Feature {
        wish: Wish,
        feature: Vec<u8>,
    },
}

/// A test of an exercise.
#[derive(Drop)]
pub struct Test {
    /// The number of its line in the exercise, counted from 1.
    pub line: u64,
    pub audience: Audience,
    pub points: u64,
    /// The line as it is written.
    pub text: Vec<u8>,
    pub check: Check,
}
