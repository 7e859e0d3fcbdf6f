//! A folder of users' files, looked at while it may be served. Nothing is written.

use crate::file::MOST_BYTES;
use crate::folder::read_name;
use crate::system::{TOO_LARGE, open_found, read_up_to};
use std::alloc::{AllocError, AllocFailed, Global};
use std::fs::{self, File, Metadata};
use std::io::{self, ErrorKind};
use std::rt::Files as System;

/// Why a folder or a file can't be looked at, or put aside.
#[derive(Clone, Copy, PartialEq, Eq, Debug)]
pub enum LookFault {
    /// Memory ran out.
    Memory,
    /// There is no such folder.
    NoFolder,
    /// There is no such file.
    Absent,
    /// A folder has the name of the file.
    Folder,
    /// A link has it.
    Link,
    /// A pipe, a device or a socket has it.
    Irregular,
    /// The file has more than 1,200,000 bytes.
    Large,
    /// Another process has the folder.
    Taken,
    /// The disk failed. The number is that of the system's error, if there was one.
    Failed(Option<i32>),
}

impl From<AllocError> for LookFault {
    fn from(_error: AllocError) -> LookFault {
        LookFault::Memory
    }
}

impl<T: Drop> From<AllocFailed<T>> for LookFault {
    fn from(_error: AllocFailed<T>) -> LookFault {
        LookFault::Memory
    }
}

impl From<io::Error> for LookFault {
    fn from(error: io::Error) -> LookFault {
        match error.kind() {
            ErrorKind::OutOfMemory => LookFault::Memory,
            ErrorKind::NotFound => LookFault::Absent,
            ErrorKind::NotADirectory => LookFault::NoFolder,
            _ => match error.raw_os_error() {
                Some(number) if number == TOO_LARGE => LookFault::Large,
                number => LookFault::Failed(number),
            },
        }
    }
}

/// The names in a folder.
#[derive(Drop)]
pub struct ListedNames {
    /// Those that are UTF-8, in order.
    pub names: Vec<String>,
    /// The number of the others.
    pub unreadable: usize,
}

/// Returns the names in a folder.
pub fn list_names<R: System<File = File> + Alloc + Clone + Drop>(
    rt: &R,
    alloc: Global,
    path: &str,
) -> Result<ListedNames, LookFault> {
    require_folder(rt, path)?;
    let mut names = Vec::new(alloc);
    let mut unreadable = 0usize;
    for entry in fs::read_dir(rt, path)? {
        match entry {
            Ok(entry) => names.push(String::from_str(alloc, entry.file_name())?)?,
            Err(error) if error.kind() == ErrorKind::InvalidFilename => {
                unreadable = unreadable.saturating_add(1);
            }
            Err(error) => return Err(LookFault::from(error)),
        }
    }
    names.sort()?;
    Ok(ListedNames { names, unreadable })
}

/// Reads the file of a user. Another process may write it meanwhile.
pub fn read_file<R: System<File = File>>(
    rt: &R,
    alloc: Global,
    folder: &str,
    user: &str,
) -> Result<Vec<u8>, LookFault> {
    let Some(name) = read_name(user.as_bytes()) else {
        return Err(LookFault::Failed(None));
    };
    let path = format!(in alloc; "{folder}/{name}")?;
    let found = fs::symlink_metadata(rt, path.as_str())?;
    require_file(&found)?;
    let file = open_found(rt, path.as_str(), &found)?;
    Ok(read_up_to(alloc, &file, MOST_BYTES)?)
}

/// Fails unless there is such a folder.
pub(crate) fn require_folder<R: System>(rt: &R, path: &str) -> Result<(), LookFault> {
    match fs::metadata(rt, path) {
        Ok(found) if found.is_dir() => Ok(()),
        Ok(_) => Err(LookFault::NoFolder),
        Err(error) if error.kind() == ErrorKind::NotFound => Err(LookFault::NoFolder),
        Err(error) => Err(LookFault::from(error)),
    }
}

/// Fails unless this is a regular file.
pub(crate) fn require_file(found: &Metadata) -> Result<(), LookFault> {
    if found.is_file() {
        Ok(())
    } else if found.is_dir() {
        Err(LookFault::Folder)
    } else if found.is_symlink() {
        Err(LookFault::Link)
    } else {
        Err(LookFault::Irregular)
    }
}
