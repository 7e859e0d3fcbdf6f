//! Files of this machine, read and written whole.

use crate::replace::{Rights, replace_file, require_regular};
use nesl_prompt::shelf::{MOST_BYTES, ShelfFault};
use std::alloc::Global;
use std::fs::{self, File, Metadata, OpenOptions};
use std::io::{self, Read};
use std::rt::Files;

/// Reads a regular file of at most `MOST_BYTES` bytes.
pub fn read_file<R: Files<File = File>>(
    rt: &R,
    alloc: Global,
    path: &str,
) -> Result<Vec<u8>, ShelfFault> {
    let bytes = read_up_to(rt, alloc, path, MOST_BYTES)?;
    if bytes.len() > MOST_BYTES {
        return Err(ShelfFault::Large);
    }
    Ok(bytes)
}

/// Writes a file, which is created if it is missing. An existing file loses its content only after the new bytes are
/// written.
pub fn write_file<R: Files<File = File>>(
    rt: &R,
    alloc: Global,
    path: &str,
    bytes: &[u8],
) -> Result<(), ShelfFault> {
    match fs::symlink_metadata(rt, path) {
        Ok(there) if there.is_symlink() => write_through_link(rt, alloc, path, bytes),
        Ok(there) => overwrite(rt, alloc, path, bytes, &there),
        Err(error) if error.kind() == io::ErrorKind::NotFound => {
            replace_file(rt, alloc, path, bytes, &Rights::New)
        }
        Err(error) => Err(ShelfFault::from(error)),
    }
}

// Reads at most `most + 1` bytes of a file. Only regular files are opened, so that a pipe can't block the prompt. The
// opened file is checked again, since another may have taken its place.
fn read_up_to<R: Files<File = File>>(
    rt: &R,
    alloc: Global,
    path: &str,
    most: usize,
) -> Result<Vec<u8>, ShelfFault> {
    require_regular(&fs::metadata(rt, path)?)?;
    let file = fs::open(rt, path)?;
    require_regular(&file.metadata()?)?;
    let mut bytes = Vec::new(alloc);
    let _ = file
        .take((most as u64).saturating_add(1))
        .read_to_end(&mut bytes)?;
    Ok(bytes)
}

// Writes the file that a symbolic link leads to. The link stays.
fn write_through_link<R: Files<File = File>>(
    rt: &R,
    alloc: Global,
    link: &str,
    bytes: &[u8],
) -> Result<(), ShelfFault> {
    let there = fs::metadata(rt, link)?;
    require_regular(&there)?;
    let path = rt.canonicalize(alloc, link)?;
    overwrite(rt, alloc, path.as_str(), bytes, &there)
}

// Overwrites an existing file, if it is regular and may be written. It is opened only to learn that. Its content is
// lost only after the new file is complete.
fn overwrite<R: Files<File = File>>(
    rt: &R,
    alloc: Global,
    path: &str,
    bytes: &[u8],
    there: &Metadata,
) -> Result<(), ShelfFault> {
    require_regular(there)?;
    let _ = OpenOptions::new().write(true).open(rt, path)?;
    replace_file(rt, alloc, path, bytes, &Rights::Kept(there))
}
