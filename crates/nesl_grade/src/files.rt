//! The files of a grading.

use nesl_gradebook::book::{Refusal, Submission, Submitted};
use nesl_gradebook::out::shown;
use std::alloc::{AllocError, Global};
use std::fs::{self, File, OpenOptions};
use std::io::{self, Eprint, Read, Write};
use std::rt::Files;
use thiserror::Error;

/// The most bytes of a file that is read: 1 MiB.
const MOST_BYTES: usize = 1_048_576;

/// Why a file can't be read or written.
#[derive(Clone, Copy, PartialEq, Eq, Debug, Error)]
pub(crate) enum FileFault {
    #[error("there is no such file")]
    Absent,
    #[error("that isn't allowed")]
    Denied,
    #[error("it is there already")]
    Taken,
    #[error("it has more than 1048576 bytes")]
    Large,
    #[error("it is no regular file")]
    Irregular,
    #[error("its name isn't UTF-8")]
    Name,
    #[error("it is no kept session")]
    Strange,
    #[error("out of memory")]
    Memory,
    #[error("the system refuses it")]
    Other,
}

impl From<AllocError> for FileFault {
    fn from(_error: AllocError) -> FileFault {
        FileFault::Memory
    }
}

impl From<io::Error> for FileFault {
    fn from(error: io::Error) -> FileFault {
        match error.kind() {
            io::ErrorKind::NotFound => FileFault::Absent,
            io::ErrorKind::PermissionDenied | io::ErrorKind::ReadOnlyFilesystem => {
                FileFault::Denied
            }
            io::ErrorKind::AlreadyExists => FileFault::Taken,
            io::ErrorKind::InvalidFilename => FileFault::Name,
            io::ErrorKind::OutOfMemory => FileFault::Memory,
            _ => FileFault::Other,
        }
    }
}

/// The submissions that were found, and the number of files that could not be read.
#[derive(Drop)]
pub(crate) struct Found {
    pub(crate) submissions: Vec<Submission>,
    pub(crate) unread: u64,
}

/// The files of this machine.
#[derive(Drop)]
pub(crate) struct Desk<'x, R> {
    pub(crate) rt: &'x R,
    pub(crate) alloc: Global,
}

impl<R: Eprint> Desk<'_, R> {
    /// Reports what is wrong with a file.
    pub(crate) fn report(&self, path: &str, fault: FileFault) {
        let _ = eprintln!(self.rt; "grade: {path}: {fault}").is_ok();
    }

    /// Reports a given form of an exercise that a session refuses.
    pub(crate) fn report_refusal(&self, path: &str, refusal: &Refusal) -> Result<(), AllocError> {
        let form = shown(self.alloc, refusal.form.as_slice())?;
        let reply = shown(self.alloc, refusal.reply.as_slice())?;
        let _ = eprintln!(self.rt;
            "grade: {path}: what is given has an error: {form} gets {reply}"
        ).is_ok();
        Ok(())
    }
}

impl<R: Files<File = File> + Eprint + Alloc + Clone + Drop> Desk<'_, R> {
    /// Reads a regular file.
    pub(crate) fn read(&self, path: &str) -> Result<Vec<u8>, FileFault> {
        if !fs::metadata(self.rt, path)?.is_file() {
            return Err(FileFault::Irregular);
        }
        let file = fs::open(self.rt, path)?;
        // Another file may have taken its place.
        if !file.metadata()?.is_file() {
            return Err(FileFault::Irregular);
        }
        let mut bytes = Vec::new(self.alloc);
        let _ = file
            .take((MOST_BYTES as u64).saturating_add(1))
            .read_to_end(&mut bytes)?;
        if bytes.len() > MOST_BYTES {
            return Err(FileFault::Large);
        }
        Ok(bytes)
    }

    /// Writes a new file.
    pub(crate) fn write_new(&self, path: &str, bytes: &[u8]) -> Result<(), FileFault> {
        let mut file = OpenOptions::new()
            .write(true)
            .create_new(true)
            .open(self.rt, path)?;
        file.write_all(bytes)?;
        Ok(())
    }

    /// Adds the submission of a file, or those of the files in a folder.
    pub(crate) fn add(&self, found: &mut Found, path: &str) -> Result<(), AllocError> {
        match fs::metadata(self.rt, path) {
            Ok(there) if there.is_dir() => self.add_folder(found, path),
            Ok(_) => self.add_file(found, path),
            Err(error) => {
                self.report(path, FileFault::from(error));
                found.unread = found.unread.saturating_add(1);
                Ok(())
            }
        }
    }

    fn add_file(&self, found: &mut Found, path: &str) -> Result<(), AllocError> {
        match self.read(path) {
            Ok(text) => {
                let name = Vec::from_slice(self.alloc, path.as_bytes())?;
                let submission = Submission::new(name, Submitted::Text(text));
                found.submissions.push(submission)?;
                Ok(())
            }
            Err(FileFault::Memory) => Err(AllocError),
            Err(fault) => {
                self.report(path, fault);
                found.unread = found.unread.saturating_add(1);
                Ok(())
            }
        }
    }

    // Adds the files of a folder, by name. Folders in it and names that begin with a dot are left out.
    fn add_folder(&self, found: &mut Found, path: &str) -> Result<(), AllocError> {
        match self.names(path) {
            Ok(names) => {
                for name in &names {
                    self.add_file(found, name.as_str())?;
                }
                Ok(())
            }
            Err(FileFault::Memory) => Err(AllocError),
            Err(fault) => {
                self.report(path, fault);
                found.unread = found.unread.saturating_add(1);
                Ok(())
            }
        }
    }

    // The paths of the files in a folder, in order.
    fn names(&self, path: &str) -> Result<Vec<String>, FileFault> {
        let mut names = Vec::new(self.alloc);
        for entry in fs::read_dir(self.rt, path)? {
            let entry = entry?;
            let is_file = entry.file_type()?.is_file();
            if is_file && !entry.file_name().starts_with('.') {
                let name = self.joined(path, entry.file_name())?;
                if names.push(name).is_err() {
                    return Err(FileFault::Memory);
                }
            }
        }
        names.sort()?;
        Ok(names)
    }

    /// The path of a name in a folder.
    pub(crate) fn joined(&self, folder: &str, name: &str) -> Result<String, AllocError> {
        let mut path = String::from_str(self.alloc, folder)?;
        if !folder.ends_with('/') {
            path.push_str("/")?;
        }
        path.push_str(name)?;
        Ok(path)
    }
}
