//! What is graded: the lines that a session gets before each test.

use nesl_session::limits::Limits;

/// What is graded.
#[derive(Drop)]
pub struct Examined {
    pub limits: Limits,
    /// The lines that the exercise gives.
    pub given: Vec<Vec<u8>>,
    /// These lines, and then those of the submission.
    pub lines: Vec<Vec<u8>>,
}
