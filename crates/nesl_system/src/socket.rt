//! Sockets of the file system.

use crate::refusal::SocketRefusal;
use nesl_service_records::system::SystemError;
use std::fs::{self, DirBuilder, File};
use std::io::{self, ErrorKind};
use std::net::Net;
use std::os::unix::fs::{DirBuilderExt, FileTypeExt, PermissionsExt};
use std::os::unix::net::{UnixListener, UnixStream};
use std::rt::Files;

/// The bits of a mode that let others than the owner in.
const OTHERS: u32 = 0o077;

/// The mode of a folder that only its owner may enter.
const CLOSED: u32 = 0o700;

/// What can listen at paths and reach who listens there.
pub trait Sockets {
    /// Listens at a path whose folder is closed to others. If there is no such folder, it is made. A socket at which
    /// nobody listens any more is replaced.
    fn listen_at(&self, path: &str) -> Result<UnixListener, SocketRefusal>;

    /// Reaches who listens at a path.
    fn reach(&self, path: &str) -> Result<UnixStream, SocketRefusal>;
}

impl<R: Files<File = File> + Net> Sockets for R {
    fn listen_at(&self, path: &str) -> Result<UnixListener, SocketRefusal> {
        require_closed(self, folder_of(path))?;
        match UnixListener::bind(self, path) {
            Ok(listener) => Ok(listener),
            Err(error) if error.kind() == ErrorKind::AddrInUse => listen_anew(self, path),
            Err(error) => Err(refusal_of(&error)),
        }
    }

    fn reach(&self, path: &str) -> Result<UnixStream, SocketRefusal> {
        match UnixStream::connect(self, path) {
            Ok(stream) => Ok(stream),
            Err(error) => Err(match error.kind() {
                ErrorKind::ConnectionRefused | ErrorKind::NotFound => SocketRefusal::Nobody,
                _ => refusal_of(&error),
            }),
        }
    }
}

// Returns the folder of a path, as it is written.
fn folder_of(path: &str) -> &str {
    match path.rsplit_once('/') {
        Some((folder, _)) if folder.is_empty() => "/",
        Some((folder, _)) => folder,
        None => ".",
    }
}

// Fails unless only its owner may enter a folder. A socket has no mode of its own that could be relied on.
fn require_closed<R: Files<File = File>>(rt: &R, folder: &str) -> Result<(), SocketRefusal> {
    match fs::metadata(rt, folder) {
        Ok(there) if there.permissions().mode() & OTHERS == 0 => Ok(()),
        Ok(_) => Err(SocketRefusal::OpenFolder),
        Err(error) if error.kind() == ErrorKind::NotFound => match make_closed(rt, folder) {
            Ok(()) => Ok(()),
            Err(error) => Err(refusal_of(&error)),
        },
        Err(error) => Err(refusal_of(&error)),
    }
}

fn make_closed<R: Files<File = File>>(rt: &R, folder: &str) -> io::Result<()> {
    DirBuilder::new().mode(CLOSED).create(rt, folder)
}

// Listens at the path of a socket that is there, if nobody listens at it.
fn listen_anew<R: Files<File = File> + Net>(
    rt: &R,
    path: &str,
) -> Result<UnixListener, SocketRefusal> {
    match fs::symlink_metadata(rt, path) {
        Ok(there) if there.file_type().is_socket() => {}
        Ok(_) => return Err(SocketRefusal::NoSocket),
        Err(error) => return Err(refusal_of(&error)),
    }
    if rt.reach(path).is_ok() {
        return Err(SocketRefusal::Taken);
    }
    match replace(rt, path) {
        Ok(listener) => Ok(listener),
        Err(error) => Err(refusal_of(&error)),
    }
}

fn replace<R: Files<File = File> + Net>(rt: &R, path: &str) -> io::Result<UnixListener> {
    fs::remove_file(rt, path)?;
    UnixListener::bind(rt, path)
}

/// Returns the refusal for an error of the system.
pub fn refusal_of(error: &io::Error) -> SocketRefusal {
    match error.raw_os_error() {
        Some(code) => SocketRefusal::Failed(SystemError { code }),
        None if error.kind() == ErrorKind::OutOfMemory => SocketRefusal::Memory,
        None => SocketRefusal::Refused,
    }
}
