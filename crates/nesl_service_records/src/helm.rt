//! What an operator can do with a service while it runs.

use nesl_line::renew::RenewalFault;
use nesl_session::limits::{Limits, Remaining};

/// A service that is steered while it runs.
pub trait Helm {
    /// Shuts down the connections of a user, and returns how many there were. `None` means that the roster has no such
    /// user.
    fn end_user(&self, user: &[u8]) -> Option<usize>;

    /// Ends the session of a user who has no connection, and begins another one.
    fn renew_user(&self, user: &[u8]) -> Result<(), RenewalFault>;

    /// Accepts no connection any more. Those that are there go on.
    fn close(&self);

    /// Shuts down all connections.
    fn end_all(&self);

    /// The number of threads of the service, and of those that have a connection or have ended.
    fn threads(&self) -> Threads;
}

/// The threads of a service.
#[derive(Clone, Copy, PartialEq, Eq, Debug)]
pub struct Threads {
    pub all: u64,
    /// Those that have a connection.
    pub busy: u64,
    /// Those that have ended.
    pub ended: u64,
}

/// What is left to a session of these limits that has got no line.
pub fn all_left(limits: Limits) -> Remaining {
    Remaining {
        work: limits.session_work,
        elements: limits.elements,
        lines: limits.transcript_lines,
        bytes: limits.transcript_bytes,
    }
}
