//! The standard descriptors.

use std::fs::OpenOptions;
use std::io;
use std::os::fd::{AsFd, AsRawFd, IntoRawFd};

/// The number of standard descriptors: 0, 1 and 2.
const STANDARD: usize = 3;

/// The error EBADF, which the system returns for a closed descriptor.
const CLOSED: i32 = 9;

/// Opens the null device on each standard descriptor that is closed. Otherwise a file or a socket would get its number.
pub fn fill_standard(rt: &HostRuntime) -> io::Result<()> {
    if !is_closed(&rt.stdin()) && !is_closed(&rt.stdout()) && !is_closed(&rt.stderr()) {
        return Ok(());
    }
    for _ in 0..=STANDARD {
        let null = OpenOptions::new()
            .read(true)
            .write(true)
            .open(rt, "/dev/null")?;
        if null.as_raw_fd() > 2 {
            break;
        }
        // The descriptor stays open.
        let _ = null.into_raw_fd();
    }
    Ok(())
}

// Whether a descriptor is closed.
fn is_closed<F: AsFd>(file: &F) -> bool {
    match file.as_fd().try_clone_to_owned() {
        Ok(_) => false,
        Err(error) => error.raw_os_error() == Some(CLOSED),
    }
}
