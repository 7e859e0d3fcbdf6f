//! What bounds a session.

/// The limits of a session. Any values are allowed.
#[derive(Clone, Copy, PartialEq, Eq, Debug)]
pub struct Limits {
    /// The most work that one line may take.
    pub line_work: u64,
    /// The work that all lines together may take.
    pub session_work: u64,
    /// The most elements that the names may have together: nodes of values, of function bodies, and of datatypes'
    /// types.
    pub elements: u64,
    /// The most lines that are recorded.
    pub transcript_lines: u64,
    /// The most bytes that the recorded lines may have together, without their line ends.
    pub transcript_bytes: u64,
}

/// What is left of each limit of a session.
#[derive(Clone, Copy, PartialEq, Eq, Debug)]
pub struct Remaining {
    /// Units of work.
    pub work: u64,
    /// Elements: nodes of values, of function bodies, and of datatypes' types.
    pub elements: u64,
    /// Lines to be recorded.
    pub lines: u64,
    /// Bytes of lines to be recorded.
    pub bytes: u64,
}
