//! The reason why a service stopped accepting connections.

use crate::system::SystemError;
use std::{fmt, io};

/// Accepting connections failed for good. `code` is the number of the system's error, if there was one. `is_web` is
/// true for the listener for browsers, and false for the one for lines.
#[derive(Clone, Copy, PartialEq, Eq, Debug)]
pub struct AcceptFault {
    pub code: Option<i32>,
    pub is_web: bool,
}

impl AcceptFault {
    pub fn new(error: &io::Error, is_web: bool) -> AcceptFault {
        AcceptFault {
            code: error.raw_os_error(),
            is_web,
        }
    }
}

impl fmt::Display for AcceptFault {
    fn fmt<W: fmt::Write>(&self, f: &mut fmt::Formatter<W>) -> fmt::Result {
        let web = if self.is_web { "web " } else { "" };
        match self.code {
            Some(code) => {
                let error = SystemError { code };
                write!(f, "{web}accept failed: {error}")
            }
            None => write!(f, "{web}accept failed"),
        }
    }
}
