//! The files of a folder of kept sessions, and why they can't be had.

ghost use Rattle.std.specs.Prelude.{List, ℕ, IfOk};

use crate::failure::Trouble;
use nesl_service_records::system::SystemError;
use std::alloc::{AllocError, Global};
use thiserror::Error;

/// Why a folder or a file of it can't be used.
#[derive(Clone, Copy, PartialEq, Eq, Debug, Error)]
pub enum PlaceFault {
    #[error("no memory")]
    Memory,
    #[error("there is no such folder")]
    NoFolder,
    #[error("there is no such file")]
    Absent,
    #[error("it is a folder")]
    Folder,
    #[error("it is a link")]
    Link,
    #[error("it is no regular file")]
    Irregular,
    #[error("it has more than 1200000 bytes")]
    Large,
    #[error("another process serves this folder")]
    Taken,
    #[error("the clock can't be read")]
    NoClock,
    #[error("the system refuses it: {0}")]
    Failed(SystemError),
    /// The system gave no number for its error.
    #[error("the system refuses it")]
    Refused,
}

impl From<AllocError> for PlaceFault {
    fn from(_error: AllocError) -> PlaceFault {
        PlaceFault::Memory
    }
}

/// The names in a folder.
#[derive(Drop)]
pub struct FolderNames {
    /// Those that are UTF-8, in order.
    pub texts: Vec<String>,
    /// The number of the others.
    pub unreadable: usize,
}

/// What is said on the way, and ends nothing.
#[derive(Clone, Copy, PartialEq, Eq, Debug, Error)]
pub enum Warning<'x> {
    /// The name in the folder is neither a user's nor one that the keeping of sessions leaves beside these.
    #[error("keep: skipped {0:?}: no user has this name")]
    Stranger(&'x str),
    #[error("keep: skipped {0} names that aren't UTF-8")]
    Unreadable(usize),
    /// The session of this user can't be had.
    #[error("keep: {0} {1}")]
    Trouble(&'x str, Trouble),
}

/// Folders of kept sessions.
pub trait KeptFolders {
    /// A read of the file of a user in a folder gave these bytes.
    ghost gave: { Self → (folder user : List ℕ) → List ℕ → Type 0 };

    /// Returns the names in a folder.
    fn names(&self, alloc: Global, folder: &str) -> Result<FolderNames, PlaceFault>;

    /// Reads the file of a user. Nothing is written, and nothing but a regular file is opened.
    fn read(&self, alloc: Global, folder: &str, user: &str) -> Result<Vec<u8>, PlaceFault>
        ensures { IfOk result (λ bytes. gave self.now folder.now user.now bytes.items) };

    /// Puts the file of a user aside, while nobody else uses the folder. Returns the name that it has then.
    fn put_aside(&self, alloc: Global, folder: &str, user: &str) -> Result<String, PlaceFault>;

    /// Shows a warning.
    fn warn(&self, warning: Warning<'_>);
}
