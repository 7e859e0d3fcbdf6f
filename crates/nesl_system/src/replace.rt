//! Files that are written whole and then replace others.

use nesl_prompt::shelf::ShelfFault;
use std::alloc::Global;
use std::fs::{self, File, Metadata, OpenOptions, Permissions};
use std::io::{self, Write};
use std::os::fd::AsFd;
use std::os::unix::fs::{MetadataExt, OpenOptionsExt, PermissionsExt, fchown};
use std::rt::Files;

/// How many names are tried for a new file.
const NAMES: u32 = 100;

/// The mode of a file that only its owner may open.
const PRIVATE: u32 = 0o600;

/// The mode of a file that only its owner may write, and everybody may read.
const READABLE: u32 = 0o644;

/// The mode requested where the process's mask decides who may open a new file.
const ANY: u32 = 0o666;

/// The permission bits of a mode, without the kind of the file.
const MODE_BITS: u32 = 0o7777;

/// The permissions of a file that is written.
#[derive(Drop)]
pub enum Rights<'x> {
    /// The process's mask decides.
    New,
    /// Everybody may read it.
    Public,
    /// Those of the file that is replaced, with its owner and its group.
    Kept(&'x Metadata),
}

impl Rights<'_> {
    // Returns the mode of the new file until it is complete.
    fn first_mode(&self) -> u32 {
        match self {
            Rights::New => ANY,
            Rights::Public | Rights::Kept(_) => PRIVATE,
        }
    }
}

/// What can replace the content of a file.
pub trait Replace {
    /// Replaces the content of a file, which everybody may read then. Fails without a change if it is no regular file.
    /// A missing file is created.
    fn replace(&self, alloc: Global, path: &str, text: &str) -> Result<(), ShelfFault>;
}

impl<R: Files<File = File>> Replace for R {
    fn replace(&self, alloc: Global, path: &str, text: &str) -> Result<(), ShelfFault> {
        match fs::symlink_metadata(self, path) {
            Ok(there) => require_regular(&there)?,
            Err(error) if error.kind() == io::ErrorKind::NotFound => {}
            Err(error) => return Err(ShelfFault::from(error)),
        }
        replace_file(self, alloc, path, text.as_bytes(), &Rights::Public)
    }
}

/// A new file, which is to be renamed.
#[derive(Drop)]
struct NewFile {
    name: String,
    file: File,
}

/// Fails unless this is a regular file.
pub fn require_regular(there: &Metadata) -> Result<(), ShelfFault> {
    if there.is_file() {
        Ok(())
    } else if there.is_dir() {
        Err(ShelfFault::Folder)
    } else if there.is_symlink() {
        Err(ShelfFault::Link)
    } else {
        Err(ShelfFault::Irregular)
    }
}

/// Writes the bytes into a new file in the same folder, and renames it to the path. If that fails, the new file is
/// removed.
pub fn replace_file<R: Files<File = File>>(
    rt: &R,
    alloc: Global,
    path: &str,
    bytes: &[u8],
    rights: &Rights<'_>,
) -> Result<(), ShelfFault> {
    let NewFile { name, file } = make_beside(rt, alloc, path, rights.first_mode())?;
    let placed = match fill(file, bytes, rights) {
        Ok(()) => place(rt, name.as_str(), path),
        Err(fault) => Err(fault),
    };
    if placed.is_err() {
        let _ = fs::remove_file(rt, name.as_str()).is_ok();
    }
    placed
}

// Creates a file beside the path, with the first free name.
fn make_beside<R: Files<File = File>>(
    rt: &R,
    alloc: Global,
    path: &str,
    mode: u32,
) -> Result<NewFile, ShelfFault> {
    for number in 1..=NAMES {
        let name = format!(in alloc; "{path}.{number}.new")?;
        match make(rt, name.as_str(), mode) {
            Ok(file) => return Ok(NewFile { name, file }),
            Err(error) if error.kind() == io::ErrorKind::AlreadyExists => {}
            Err(error) => return Err(ShelfFault::from(error)),
        }
    }
    Err(ShelfFault::Beside)
}

// Creates a file. Fails if there is a file with its name.
fn make<R: Files<File = File>>(rt: &R, name: &str, mode: u32) -> io::Result<File> {
    OpenOptions::new()
        .write(true)
        .create_new(true)
        .mode(mode)
        .open(rt, name)
}

// Writes the bytes into a new file, and then sets its permissions.
fn fill(file: File, bytes: &[u8], rights: &Rights<'_>) -> Result<(), ShelfFault> {
    let mut file = file;
    file.write_all(bytes)?;
    match rights {
        Rights::New => {}
        Rights::Public => {
            file.set_permissions(Permissions::from_mode(READABLE))?;
            return Ok(());
        }
        Rights::Kept(there) => {
            keep_owner(&file, there)?;
            let mode = there.mode() & MODE_BITS;
            file.set_permissions(Permissions::from_mode(mode))?;
        }
    }
    // Some systems detect only here that the disk is full.
    Ok(file.sync_all()?)
}

// Gives a file the owner and the group of another one.
fn keep_owner(file: &File, there: &Metadata) -> Result<(), ShelfFault> {
    let own = file.metadata()?;
    if own.uid() == there.uid() && own.gid() == there.gid() {
        return Ok(());
    }
    match fchown(file.as_fd(), Some(there.uid()), Some(there.gid())) {
        Ok(()) => Ok(()),
        Err(_) => Err(ShelfFault::Owner),
    }
}

fn place<R: Files>(rt: &R, name: &str, path: &str) -> Result<(), ShelfFault> {
    Ok(fs::rename(rt, name, path)?)
}
