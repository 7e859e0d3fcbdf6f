//! The files of this machine, as a prompt loads and saves them.

use nesl_prompt::shelf::{Shelf, ShelfFault};
use nesl_system::files::{read_file, write_file};
use std::alloc::Global;
use std::fs::File;
use std::rt::Files;

/// The file system of this machine.
#[derive(Drop)]
pub struct Disk<'x, R> {
    pub rt: &'x R,
}

impl<R: Files<File = File>> Shelf for Disk<'_, R> {
    fn read(&self, alloc: Global, path: &str) -> Result<Vec<u8>, ShelfFault> {
        read_file(self.rt, alloc, path)
    }

    fn write(&self, alloc: Global, path: &str, bytes: &[u8]) -> Result<(), ShelfFault> {
        write_file(self.rt, alloc, path, bytes)
    }
}
