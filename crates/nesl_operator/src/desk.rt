//! What an operator reaches beside the service: its log, its monitor, its keys, and the disk of its sessions.

use crate::monitor::Monitor;
use nesl_keep_file::Storage;
use nesl_keys::keys::Keys;
use nesl_service_records::system::SystemError;
use nesl_system::key_file::ReadKeys;
use nesl_system::log::{Log, Reopened};
use nesl_system::log_file::Append;
use nesl_system::refusal::KeysRefusal;
use std::alloc::{AllocError, Global};
use std::fmt::Write as WriteText;
use std::fs::File;
use std::io::{self, Write};
use std::sync::{Arc, Wait};
use std::time::Clock;

/// Whether a request was done. Its text has what was asked for, or the reason why it was refused.
#[derive(Clone, Copy, PartialEq, Eq, Debug)]
pub enum Outcome {
    Done,
    Refused,
}

/// Refuses a request for this reason.
pub fn refuse(text: &mut String, reason: &str) -> Result<Outcome, AllocError> {
    text.push_str(reason)?;
    Ok(Outcome::Refused)
}

/// What holds the keys that count.
pub trait KeyHolder {
    /// From now on these keys count.
    fn replace<R: Wait>(&self, rt: &R, keys: Arc<Keys>);
}

/// The file of keys of a service, and what holds those that count.
#[derive_where(Clone, Copy)]
pub struct KeysDesk<'d, K> {
    pub path: &'d str,
    pub holder: &'d K,
}

/// What else an operator reaches. `folder` is the one where sessions are kept.
#[derive_where(Clone, Copy)]
pub struct Desk<'d, 'x, R, K> {
    pub log: Option<&'d Log<'x, R>>,
    pub monitor: Option<&'d Monitor>,
    pub keys: Option<KeysDesk<'d, K>>,
    pub folder: Option<&'d str>,
}

impl<R, K> Desk<'_, '_, R, K> {
    /// Has the monitor say that the service is stopping.
    pub fn note_stop(&self) {
        if let Some(monitor) = self.monitor {
            monitor.note_stop();
        }
    }
}

impl<R: Wait + Clock + Append, K> Desk<'_, '_, R, K> {
    /// Opens the file of the log anew.
    pub fn reopen(&self, text: &mut String) -> Result<Outcome, AllocError> {
        let reopened = match self.log {
            Some(log) => log.reopen(),
            None => Reopened::NoFile,
        };
        match reopened {
            Reopened::Done => Ok(Outcome::Done),
            Reopened::NoFile => refuse(text, "there is no --log-file"),
            Reopened::Failed(fault) => {
                write!(text, "the log goes on in the old file: {fault}")?;
                Ok(Outcome::Refused)
            }
        }
    }
}

impl<R: ReadKeys + Wait, K: KeyHolder> Desk<'_, '_, R, K> {
    /// Reads the keys again. If that fails, the old ones count.
    pub fn read_keys(
        &self,
        rt: &R,
        alloc: Global,
        text: &mut String,
    ) -> Result<Outcome, AllocError> {
        let Some(KeysDesk { path, holder }) = self.keys else {
            return refuse(text, "there is no --keys");
        };
        match rt.read_keys(alloc, path) {
            Ok(keys) => {
                holder.replace(rt, keys);
                Ok(Outcome::Done)
            }
            Err(KeysRefusal::Memory) => Err(AllocError),
            Err(refusal) => {
                write!(text, "the old keys still count: {refusal}")?;
                Ok(Outcome::Refused)
            }
        }
    }
}

impl<R: Storage, K> Desk<'_, '_, R, K> {
    /// Checks whether sessions can be kept, if they are.
    pub fn check_disk(
        &self,
        rt: &R,
        alloc: Global,
        text: &mut String,
    ) -> Result<Outcome, AllocError> {
        let Some(folder) = self.folder else {
            return Ok(Outcome::Done);
        };
        let path = format!(in alloc; "{folder}/.check")?;
        match write_and_remove(rt, path.as_str()) {
            Ok(()) => {
                text.push_str("the disk of --keep can be written\n")?;
                Ok(Outcome::Done)
            }
            Err(error) => {
                text.clear();
                text.push_str("the disk of --keep can't be written: ")?;
                match error.raw_os_error() {
                    Some(code) => {
                        let error = SystemError { code };
                        write!(text, "{error}")?;
                    }
                    None => text.push_str("disk fault")?,
                }
                Ok(Outcome::Refused)
            }
        }
    }
}

// Writes a byte into a file, brings it to the disk, and removes the file.
fn write_and_remove<R: Storage>(rt: &R, path: &str) -> io::Result<()> {
    rt.remove_left_over(path)?;
    let written = write_byte(rt.make_file(path)?);
    rt.remove(path)?;
    written
}

fn write_byte(file: File) -> io::Result<()> {
    let mut file = file;
    file.write_all(b"\n")?;
    file.sync_all()
}
