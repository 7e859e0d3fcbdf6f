//! Outcomes of tests.
ghost use Rattle.std.specs.Prelude.{◌≡◌, false, true};
ghost use Rattle.nesl_exercise.specs.declared.outcome.Outcome.TheVariants as outcomes;

use crate::bound::BoundFault;

/// The outcome of a test.
#[derive(Drop)]
pub enum Outcome {
    Passed,
    /// The reply isn't the wanted one. If a fault was wanted, the second text is its name.
    Other(Vec<u8>, Vec<u8>),
    /// At the first number, the cost after it is above the bound.
    Over(u64, u64, u128),
    /// At the number, the reply has no value.
    Refused(u64, Vec<u8>),
    /// At the number, the bound has no value.
    Unbounded(u64, BoundFault),
    /// A feature that has to be in the submission isn't there.
    Absent,
    /// A feature that must not be in the submission is there.
    Present,
}

impl Outcome {
    /// Whether the test is passed.
    pub fn is_passed(&self) -> bool
        ensures yes { result ≡ true → self.now ≡ outcomes.Passed }
        ensures no { result ≡ false → ¬ (self.now ≡ outcomes.Passed) }
    {
        match self {
            Outcome::Passed => true,
            Outcome::Other(_, _) => false,
            Outcome::Over(_, _, _) => false,
            Outcome::Refused(_, _) => false,
            Outcome::Unbounded(_, _) => false,
            Outcome::Absent => false,
            Outcome::Present => false,
        }
    }
}

/// A cost of a submission at `n`, and the bound there, if it has a value.
#[derive(Clone, Copy)]
pub struct Point {
    pub n: u64,
    pub cost: u64,
    pub bound: Option<u128>,
}

/// A submission's outcomes, in the order of the exercise's tests, and its points.
#[derive(Drop)]
pub struct Graded {
    pub outcomes: Vec<Outcome>,
    pub points: u64,
    /// The points of all tests.
    pub most: u64,
}
