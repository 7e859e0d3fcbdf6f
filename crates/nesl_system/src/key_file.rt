//! The file of keys, as a service reads it.

use crate::files::read_file;
use crate::refusal::KeysRefusal;
use nesl_keys::keys::{Keys, KeysFault};
use std::alloc::Global;
use std::fs::File;
use std::rt::Files;
use std::sync::Arc;

/// What can read keys from a file.
pub trait ReadKeys {
    /// Reads the keys of users.
    fn read_keys(&self, alloc: Global, path: &str) -> Result<Arc<Keys>, KeysRefusal>;
}

impl<R: Files<File = File>> ReadKeys for R {
    fn read_keys(&self, alloc: Global, path: &str) -> Result<Arc<Keys>, KeysRefusal> {
        let bytes = match read_file(self, alloc, path) {
            Ok(bytes) => bytes,
            Err(fault) => return Err(KeysRefusal::File(fault)),
        };
        match Keys::read(alloc, bytes.as_slice()) {
            Ok(keys) => match Arc::new(alloc, keys) {
                Ok(keys) => Ok(keys),
                Err(_) => Err(KeysRefusal::Memory),
            },
            Err(KeysFault::Memory) => Err(KeysRefusal::Memory),
            Err(fault) => Err(KeysRefusal::Content(fault)),
        }
    }
}
