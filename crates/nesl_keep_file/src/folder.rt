//! The folder of the users' files, which one process has at a time.

use crate::file::{Place, UserFile};
use crate::look::LookFault;
use crate::system::Storage;
use nesl_keep::device::{DeviceError, Folder, Opened};
use std::alloc::{AllocError, Global};
use std::fs::{File, TryLockError};
use std::io::{self, ErrorKind};

/// The most letters and digits of a user's name.
const MOST_LETTERS: usize = 16;

/// How many names are tried for a file that is put aside.
const MOST_NAMES: u32 = 100;

/// Why a folder can't be used.
#[derive(Clone, Copy, Debug, PartialEq, Eq)]
pub enum FolderFault {
    /// Memory ran out.
    Memory,
    /// Another process has it.
    Taken,
    /// Something else has its name.
    NotAFolder,
    /// The disk failed. The number is that of the system's error, if there was one.
    Failed(Option<i32>),
}

impl From<AllocError> for FolderFault {
    fn from(_: AllocError) -> Self {
        FolderFault::Memory
    }
}

impl From<io::Error> for FolderFault {
    fn from(error: io::Error) -> Self {
        match error.kind() {
            ErrorKind::OutOfMemory => FolderFault::Memory,
            ErrorKind::NotADirectory => FolderFault::NotAFolder,
            _ => FolderFault::Failed(error.raw_os_error()),
        }
    }
}

/// The files of users in one folder, `FOLDER/NAME` for each. No other process has the folder for as long as this or a
/// file of it lives. Threads may share it.
#[derive(Drop)]
pub struct Files<'x, R> {
    rt: &'x R,
    path: &'x str,
    folder: File,
    lock: File,
}

impl<'x, R: Storage> Files<'x, R> {
    /// Takes a folder, which is made if it isn't there, by a lock on the file `FOLDER/.lock`. The lock ends with the
    /// process, however that ends.
    pub fn lock(rt: &'x R, alloc: Global, path: &'x str) -> Result<Self, FolderFault> {
        let folder = rt.open_folder(path)?;
        let lock = open_lock(rt, format!(in alloc; "{path}/.lock")?.as_str())?;
        match lock.try_lock() {
            Ok(()) => {}
            Err(TryLockError::WouldBlock) => return Err(FolderFault::Taken),
            Err(TryLockError::Error(error)) => return Err(FolderFault::from(error)),
        }
        // The folder's own name must outlast a crash too. Whoever may not read the folder above didn't make this one.
        rt.sync_if_readable(format!(in alloc; "{path}/..")?.as_str())?;
        Ok(Files {
            rt,
            path,
            folder,
            lock,
        })
    }

    /// Makes an empty file in the name of a user and a time, with a number after it if that name is taken. Returns the
    /// name.
    pub(crate) fn claim(&self, alloc: Global, user: &str, time: &str) -> Result<String, LookFault> {
        for number in 1..=MOST_NAMES {
            let name = name_aside(alloc, user, time, number)?;
            let path = format!(in alloc; "{}/{name}", self.path)?;
            match self.rt.make_file(path.as_str()) {
                Ok(_) => return Ok(name),
                Err(error) if error.kind() == ErrorKind::AlreadyExists => {}
                Err(error) => return Err(LookFault::from(error)),
            }
        }
        Err(LookFault::from(io::Error::from(ErrorKind::AlreadyExists)))
    }

    /// Brings the names in the folder to the disk.
    pub(crate) fn sync(&self) -> io::Result<()> {
        self.folder.sync_all()
    }
}

fn name_aside(alloc: Global, user: &str, time: &str, number: u32) -> Result<String, AllocError> {
    if number == 1 {
        format!(in alloc; "{user}.{time}")
    } else {
        format!(in alloc; "{user}.{time}.{number}")
    }
}

fn open_lock<R: Storage>(rt: &R, path: &str) -> io::Result<File> {
    match rt.make_file(path) {
        Err(error) if error.kind() == ErrorKind::AlreadyExists => rt.open_file(path),
        made => made,
    }
}

impl<'x, R: Storage> Folder for Files<'x, R> {
    type Device = UserFile<'x, R>;

    /// A name that isn't 1 to 16 small letters and digits is refused as `Failed(None)`, and so is what is no regular
    /// file.
    fn open(&self, alloc: Global, user: &[u8]) -> Result<Opened<UserFile<'x, R>>, DeviceError> {
        let Some(name) = read_name(user) else {
            return Err(DeviceError::Failed(None));
        };
        let path = format!(in alloc; "{}/{name}", self.path)?;
        let beside = format!(in alloc; "{}/{name}.new", self.path)?;
        let place = Place {
            path,
            beside,
            folder: self.folder.try_clone().map_err(fault_of)?,
            lock: self.lock.try_clone().map_err(fault_of)?,
        };
        UserFile::open(self.rt, alloc, place).map_err(fault_of)
    }
}

/// Returns the name of a user. It has small letters and digits alone, so that no path leaves the folder.
pub(crate) fn read_name(user: &[u8]) -> Option<&str> {
    let is_plain = |b: &u8| b.is_ascii_lowercase() || b.is_ascii_digit();
    if user.is_empty() || user.len() > MOST_LETTERS || !user.iter().all(is_plain) {
        return None;
    }
    std::str::from_utf8(user).ok()
}

fn fault_of(error: io::Error) -> DeviceError {
    match error.kind() {
        ErrorKind::OutOfMemory => DeviceError::Memory,
        _ => DeviceError::Failed(error.raw_os_error()),
    }
}
