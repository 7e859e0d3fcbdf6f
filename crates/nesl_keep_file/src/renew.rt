//! The file of a user is put aside, so that the session begins anew.

use crate::folder::{Files, FolderFault, read_name};
use crate::look::{LookFault, require_file, require_folder};
use std::alloc::{AllocError, Global};
use std::fs::{self, File};
use std::rt::Files as System;

impl From<FolderFault> for LookFault {
    fn from(fault: FolderFault) -> LookFault {
        match fault {
            FolderFault::Memory => LookFault::Memory,
            FolderFault::Taken => LookFault::Taken,
            FolderFault::NotAFolder => LookFault::NoFolder,
            FolderFault::Failed(number) => LookFault::Failed(number),
        }
    }
}

/// Gives the file of a user another name in the folder, which it returns: the user's, a dot, and this time. No file
/// that is there is replaced. The folder is locked meanwhile.
pub fn put_aside<R: System<File = File>>(
    rt: &R,
    alloc: Global,
    folder: &str,
    user: &str,
    time: &str,
) -> Result<String, LookFault> {
    let Some(user) = read_name(user.as_bytes()) else {
        return Err(LookFault::Failed(None));
    };
    require_folder(rt, folder)?;
    let files = Files::lock(rt, alloc, folder)?;
    let path = make_path(alloc, folder, user)?;
    require_file(&fs::symlink_metadata(rt, path.as_str())?)?;
    let name = files.claim(alloc, user, time)?;
    let aside = make_path(alloc, folder, name.as_str())?;
    if let Err(error) = fs::rename(rt, path.as_str(), aside.as_str()) {
        let _ = fs::remove_file(rt, aside.as_str()).is_ok();
        return Err(LookFault::from(error));
    }
    files.sync()?;
    Ok(name)
}

fn make_path(alloc: Global, folder: &str, name: &str) -> Result<String, AllocError> {
    format!(in alloc; "{folder}/{name}")
}
