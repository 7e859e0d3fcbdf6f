//! Calls of the system on files and folders. A name may be of anything: of a pipe, a link or a folder.

use std::alloc::Global;
use std::fs::{self, DirBuilder, File, Metadata, OpenOptions};
use std::io::{self, ErrorKind, Read};
use std::os::fd::AsRawFd;
use std::os::unix::fs::{DirBuilderExt, FileExt, MetadataExt, OpenOptionsExt};
use std::rt::Files;

/// The mode of a file that only its owner may open.
const PRIVATE_FILE: u32 = 0o600;

/// The mode of a folder that only its owner may open.
const PRIVATE_FOLDER: u32 = 0o700;

/// The system's error for a file that is too large.
pub(crate) const TOO_LARGE: i32 = 27;

/// The calls of the system by which files are kept. It is a trait of its own, since what threads share can't rest on an
/// assumed `Files` of the kit.
pub trait Storage {
    /// Opens a folder, which is made if it isn't there, with mode 0700.
    fn open_folder(&self, path: &str) -> io::Result<File>;

    /// Brings a folder's names to the disk, if it may be read.
    fn sync_if_readable(&self, path: &str) -> io::Result<()>;

    /// Makes a file that isn't there, with mode 0600.
    fn make_file(&self, path: &str) -> io::Result<File>;

    /// Opens a regular file that is there.
    fn open_file(&self, path: &str) -> io::Result<File>;

    /// Removes what an earlier replacement left at a name.
    fn remove_left_over(&self, path: &str) -> io::Result<()>;

    /// Gives a file the name of another, which it replaces.
    fn rename(&self, from: &str, to: &str) -> io::Result<()>;

    /// Removes a file.
    fn remove(&self, path: &str) -> io::Result<()>;
}

impl<R: Files<File = File>> Storage for R {
    fn open_folder(&self, path: &str) -> io::Result<File> {
        open_folder(self, path)
    }

    fn sync_if_readable(&self, path: &str) -> io::Result<()> {
        sync_if_readable(self, path)
    }

    fn make_file(&self, path: &str) -> io::Result<File> {
        make_file(self, path)
    }

    fn open_file(&self, path: &str) -> io::Result<File> {
        open_file(self, path)
    }

    fn remove_left_over(&self, path: &str) -> io::Result<()> {
        remove_left_over(self, path)
    }

    fn rename(&self, from: &str, to: &str) -> io::Result<()> {
        fs::rename(self, from, to)
    }

    fn remove(&self, path: &str) -> io::Result<()> {
        fs::remove_file(self, path)
    }
}

/// Opens a folder, which is made if nothing has its name. Only a folder is opened, since a pipe could block.
fn open_folder<R: Files<File = File>>(rt: &R, path: &str) -> io::Result<File> {
    match DirBuilder::new().mode(PRIVATE_FOLDER).create(rt, path) {
        Err(error) if error.kind() != ErrorKind::AlreadyExists => return Err(error),
        _ => {}
    }
    if !fs::metadata(rt, path)?.is_dir() {
        return Err(ErrorKind::NotADirectory.into());
    }
    let folder = fs::open(rt, path)?;
    if folder.metadata()?.is_dir() {
        Ok(folder)
    } else {
        Err(ErrorKind::NotADirectory.into())
    }
}

/// Brings the names in a folder to the disk, unless this process may not read it.
fn sync_if_readable<R: Files<File = File>>(rt: &R, path: &str) -> io::Result<()> {
    match fs::open(rt, path) {
        Ok(folder) => folder.sync_all(),
        Err(error) if error.kind() == ErrorKind::PermissionDenied => Ok(()),
        Err(error) => Err(error),
    }
}

/// Makes a file for reading and writing. Fails if anything has its name.
fn make_file<R: Files<File = File>>(rt: &R, path: &str) -> io::Result<File> {
    OpenOptions::new()
        .read(true)
        .write(true)
        .create_new(true)
        .mode(PRIVATE_FILE)
        .open(rt, path)
}

/// Opens a regular file for reading and writing. Nothing else is opened, since a pipe could block, and a link could
/// lead out of the folder. The opened file must be the one that was found, since another may have taken its place.
fn open_file<R: Files<File = File>>(rt: &R, path: &str) -> io::Result<File> {
    let found = fs::symlink_metadata(rt, path)?;
    require_regular(&found)?;
    let file = OpenOptions::new().read(true).write(true).open(rt, path)?;
    require_same(&file, &found)?;
    Ok(file)
}

/// Opens a regular file that was found, for reading alone.
pub(crate) fn open_found<R: Files<File = File>>(
    rt: &R,
    path: &str,
    found: &Metadata,
) -> io::Result<File> {
    require_regular(found)?;
    let file = fs::open(rt, path)?;
    require_same(&file, found)?;
    Ok(file)
}

// Fails unless the opened file is the one that was found.
fn require_same(file: &File, found: &Metadata) -> io::Result<()> {
    let opened = file.metadata()?;
    if opened.dev() == found.dev() && opened.ino() == found.ino() {
        Ok(())
    } else {
        Err(ErrorKind::Unsupported.into())
    }
}

/// Removes a regular file, if there is one.
fn remove_left_over<R: Files<File = File>>(rt: &R, path: &str) -> io::Result<()> {
    match fs::symlink_metadata(rt, path) {
        Ok(found) => {
            require_regular(&found)?;
            fs::remove_file(rt, path)
        }
        Err(error) if error.kind() == ErrorKind::NotFound => Ok(()),
        Err(error) => Err(error),
    }
}

fn require_regular(found: &Metadata) -> io::Result<()> {
    if found.is_file() {
        Ok(())
    } else {
        Err(ErrorKind::Unsupported.into())
    }
}

/// Writes the bytes into a new file, and brings them to the disk.
pub(crate) fn fill(file: &File, bytes: &[u8]) -> io::Result<()> {
    file.write_all_at(bytes, 0)?;
    file.sync_all()
}

/// Brings a file and its name to the disk, and then reads it. The system's copies of its pages are dropped between: a
/// sync that failed in an earlier process may have left them other than the disk has them. A file of more than `most`
/// bytes is refused.
pub(crate) fn read_settled(
    alloc: Global,
    file: &File,
    folder: &File,
    most: usize,
) -> io::Result<Vec<u8>> {
    file.sync_all()?;
    folder.sync_all()?;
    let advised = libc::posix_fadvise(file.as_raw_fd(), 0, 0, libc::POSIX_FADV_DONTNEED);
    if advised != 0 {
        return Err(io::Error::from_raw_os_error(advised));
    }
    read_up_to(alloc, file, most)
}

/// Reads a file. One of more than `most` bytes is refused.
pub(crate) fn read_up_to(alloc: Global, file: &File, most: usize) -> io::Result<Vec<u8>> {
    let mut bytes = Vec::new(alloc);
    let _ = file
        .take((most as u64).saturating_add(1))
        .read_to_end(&mut bytes)?;
    if bytes.len() > most {
        return Err(io::Error::from_raw_os_error(TOO_LARGE));
    }
    Ok(bytes)
}
