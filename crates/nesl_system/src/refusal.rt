//! Why a socket or a file of keys can't be used.

use nesl_keys::keys::KeysFault;
use nesl_prompt::shelf::ShelfFault;
use nesl_service_records::system::SystemError;
use thiserror::Error;

/// Why the socket of an operator can't be used.
#[derive(Clone, Copy, PartialEq, Eq, Debug, Error)]
pub enum SocketRefusal {
    #[error("another service listens there")]
    Taken,
    #[error("there is a file of this name that is no socket")]
    NoSocket,
    #[error("its folder is open to others: it must have mode 700")]
    OpenFolder,
    #[error("no service listens there")]
    Nobody,
    /// The service refused what was asked, or broke off.
    #[error("not done")]
    NotDone,
    #[error("the system refuses it: {0}")]
    Failed(SystemError),
    /// The system gave no number for its error.
    #[error("the system refuses it")]
    Refused,
    #[error("no memory")]
    Memory,
}

/// Why a file of keys can't be read or written.
#[derive(Clone, Copy, PartialEq, Eq, Debug, Error)]
pub enum KeysRefusal {
    #[error("there is a file of this name")]
    Taken,
    /// It was read, and is no file of keys.
    #[error("{0}")]
    Content(KeysFault),
    /// A user whose key is to be renewed isn't in it.
    #[error("it doesn't list a user")]
    Unlisted,
    #[error("{0}")]
    File(ShelfFault),
    #[error("the system gives no random bytes")]
    Random,
    #[error("standard output: write fault")]
    Output,
    #[error("no memory")]
    Memory,
}
