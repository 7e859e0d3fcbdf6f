//! The files that a prompt loads and saves.
ghost use Rattle.std.specs.Prelude.{◌≡◌, Err};
ghost use Rattle.nesl_prompt.specs.declared.shelf.Access.TheVariants.{Refused};
ghost use Rattle.nesl_prompt.specs.declared.shelf.ShelfFault.TheVariants.{Closed};

use std::alloc::{AllocError, AllocFailed, Global};
use std::io;
use thiserror::Error;

/// The most bytes of a file that may be loaded: 16 MiB.
pub const MOST_BYTES: usize = 16_777_216;

/// Why a file can't be read or written.
#[derive(Clone, Copy, PartialEq, Eq, Debug, Error)]
pub enum ShelfFault {
    #[error("there is no such file")]
    Absent,
    #[error("that isn't allowed")]
    Denied,
    #[error("it has more than 16777216 bytes")]
    Large,
    #[error("there is no memory for it")]
    Memory,
    #[error("there is no room for it")]
    Full,
    #[error("it is a folder")]
    Folder,
    #[error("it is a link")]
    Link,
    #[error("it is no regular file")]
    Irregular,
    #[error("files of this name with `.1.new` to `.100.new` after it are in the way")]
    Beside,
    #[error("its owner or its group can't be kept")]
    Owner,
    #[error("standard input is no terminal, and `--files` isn't given")]
    Closed,
    #[error("the system refuses it")]
    Other,
}

impl From<AllocError> for ShelfFault {
    fn from(_error: AllocError) -> ShelfFault {
        ShelfFault::Memory
    }
}

impl<T: Drop> From<AllocFailed<T>> for ShelfFault {
    fn from(_error: AllocFailed<T>) -> ShelfFault {
        ShelfFault::Memory
    }
}

// Returns the fault for an error of the system.
impl From<io::Error> for ShelfFault {
    fn from(error: io::Error) -> ShelfFault {
        match error.kind() {
            io::ErrorKind::NotFound => ShelfFault::Absent,
            io::ErrorKind::PermissionDenied | io::ErrorKind::ReadOnlyFilesystem => {
                ShelfFault::Denied
            }
            io::ErrorKind::OutOfMemory => ShelfFault::Memory,
            io::ErrorKind::StorageFull => ShelfFault::Full,
            io::ErrorKind::IsADirectory => ShelfFault::Folder,
            _ => ShelfFault::Other,
        }
    }
}

/// A store of files.
pub trait Shelf {
    /// Reads a file of at most `MOST_BYTES` bytes.
    fn read(&self, alloc: Global, path: &str) -> Result<Vec<u8>, ShelfFault>;

    /// Writes a file, which is created if it is missing. An existing file loses its content only after the new bytes
    /// are written.
    fn write(&self, alloc: Global, path: &str, bytes: &[u8]) -> Result<(), ShelfFault>;
}

/// Whether a prompt may open files.
#[derive(Clone, Copy, PartialEq, Eq, Debug)]
pub enum Access {
    Granted,
    Refused,
}

/// A store of files that opens them only where access is granted.
#[derive(Drop)]
pub struct Guarded<'x, F> {
    pub files: &'x F,
    pub access: Access,
}

impl<F: Shelf> Shelf for Guarded<'_, F> {
    fn read(&self, alloc: Global, path: &str) -> Result<Vec<u8>, ShelfFault>
        ensures { self.now.access ≡ Refused → result ≡ Err Closed }
    {
        match self.access {
            Access::Granted => self.files.read(alloc, path),
            Access::Refused => Err(ShelfFault::Closed),
        }
    }

    fn write(&self, alloc: Global, path: &str, bytes: &[u8]) -> Result<(), ShelfFault>
        ensures { self.now.access ≡ Refused → result ≡ Err Closed }
    {
        match self.access {
            Access::Granted => self.files.write(alloc, path, bytes),
            Access::Refused => Err(ShelfFault::Closed),
        }
    }
}
