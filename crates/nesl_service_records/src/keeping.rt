//! The reason why a session isn't kept.

use crate::system::SystemError;
use nesl_line::keeper::{KeepFault, Mismatch};
use std::fmt;

/// Shows why a session could not be taken up, or why a line of it could not be kept.
#[derive(Clone, Copy, PartialEq, Eq, Debug)]
pub struct KeepReason {
    pub fault: KeepFault,
}

impl fmt::Display for KeepReason {
    fn fmt<W: fmt::Write>(&self, f: &mut fmt::Formatter<W>) -> fmt::Result {
        match self.fault {
            KeepFault::Memory => f.write_str("no memory"),
            KeepFault::Disk(Some(code)) => {
                let error = SystemError { code };
                write!(f, "{error}")
            }
            KeepFault::Disk(None) => f.write_str("disk fault"),
            KeepFault::Full => f.write_str("it would be longer than 2^60 bytes"),
            KeepFault::Strange(mismatch) => write_mismatch(mismatch, f),
        }
    }
}

// Writes why a file doesn't fit.
fn write_mismatch<W: fmt::Write>(mismatch: Mismatch, f: &mut fmt::Formatter<W>) -> fmt::Result {
    match mismatch {
        Mismatch::Head => f.write_str("line 1 isn't a head of this version"),
        Mismatch::Line(line) => write!(f, "line {line} isn't stored by this version"),
        Mismatch::Session(line) => write!(f, "line {line} isn't the one of the session in memory"),
    }
}

/// What the log says of a session that isn't kept: whose file it is, and why.
#[derive(Clone, Copy, PartialEq, Eq, Debug)]
pub struct KeepFailure<'a> {
    /// The user, or `None` if the roster has no such place.
    pub user: Option<&'a [u8]>,
    pub fault: KeepFault,
}

impl fmt::Display for KeepFailure<'_> {
    fn fmt<W: fmt::Write>(&self, f: &mut fmt::Formatter<W>) -> fmt::Result {
        let name = name_shown(self.user);
        let reason = KeepReason { fault: self.fault };
        write!(f, "kept file of {name}: {reason}")
    }
}

/// The name of a user as it is shown, or a question mark if it isn't known.
pub fn name_shown(user: Option<&[u8]>) -> &str {
    match user {
        Some(name) => str::from_utf8(name).unwrap_or("?"),
        None => "?",
    }
}
