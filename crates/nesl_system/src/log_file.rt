//! A file to which the lines of a log are added.

use crate::replace::require_regular;
use nesl_prompt::shelf::ShelfFault;
use std::fs::{self, File, OpenOptions};
use std::io;
use std::os::unix::fs::OpenOptionsExt;
use std::rt::Files;

/// The mode of a new file: its group may read it.
const MODE: u32 = 0o640;

/// What can open a file to which lines are added.
pub trait Append {
    /// Opens a file to add to its end. Fails if it is no regular file. A missing file is created.
    fn append(&self, path: &str) -> Result<File, ShelfFault>;
}

impl<R: Files<File = File>> Append for R {
    fn append(&self, path: &str) -> Result<File, ShelfFault> {
        match fs::symlink_metadata(self, path) {
            Ok(there) => require_regular(&there)?,
            Err(error) if error.kind() == io::ErrorKind::NotFound => {}
            Err(error) => return Err(ShelfFault::from(error)),
        }
        let opened = OpenOptions::new()
            .append(true)
            .create(true)
            .mode(MODE)
            .open(self, path);
        Ok(opened?)
    }
}
