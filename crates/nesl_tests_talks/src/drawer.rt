//! Files that are kept in memory.

use nesl_prompt::shelf::{Shelf, ShelfFault};
use std::alloc::{AllocError, Global};
use std::cell::RefCell;

/// A file with definitions and an evaluation, and one whose last form isn't ended.
const FILES: [(&str, &[u8]); 2] = [
    (
        "squares",
        b"function squares(v) =\n  {a * a : a in v};\n\nsquares([1, 2, 3]);\n",
    ),
    ("half", b"x = 1;\r\n:help\r\ny = x +\r\n  1"),
];

/// Files that can't be read or written.
const FAULTS: [(&str, ShelfFault); 10] = [
    ("denied", ShelfFault::Denied),
    ("large", ShelfFault::Large),
    ("memory", ShelfFault::Memory),
    ("full", ShelfFault::Full),
    ("folder", ShelfFault::Folder),
    ("link", ShelfFault::Link),
    ("irregular", ShelfFault::Irregular),
    ("beside", ShelfFault::Beside),
    ("owner", ShelfFault::Owner),
    ("other", ShelfFault::Other),
];

/// A file.
#[derive(Drop)]
struct Sheet {
    path: Vec<u8>,
    bytes: Vec<u8>,
}

/// The files of a text. Those whose names are faults can't be read or written for these faults.
#[derive(Drop)]
pub struct Drawer {
    sheets: RefCell<Vec<Sheet>>,
}

impl Drawer {
    /// The files that are there at first.
    pub fn new(alloc: Global) -> Result<Drawer, AllocError> {
        let mut sheets = Vec::new(alloc);
        for (path, bytes) in &FILES {
            sheets.push(filled(alloc, path, bytes)?)?;
        }
        Ok(Drawer {
            sheets: RefCell::new(sheets),
        })
    }
}

impl Shelf for Drawer {
    fn read(&self, alloc: Global, path: &str) -> Result<Vec<u8>, ShelfFault> {
        if let Some(fault) = fault_named(path) {
            return Err(fault);
        }
        let Ok(sheets) = self.sheets.try_borrow() else {
            return Err(ShelfFault::Other);
        };
        read_from(alloc, sheets.as_slice(), path)
    }

    fn write(&self, alloc: Global, path: &str, bytes: &[u8]) -> Result<(), ShelfFault> {
        if let Some(fault) = fault_named(path) {
            return Err(fault);
        }
        let Ok(sheet) = filled(alloc, path, bytes) else {
            return Err(ShelfFault::Memory);
        };
        let Ok(mut sheets) = self.sheets.try_borrow_mut() else {
            return Err(ShelfFault::Other);
        };
        match sheets.push(sheet) {
            Ok(()) => Ok(()),
            Err(_) => Err(ShelfFault::Memory),
        }
    }
}

// A file with these bytes.
fn filled(alloc: Global, path: &str, bytes: &[u8]) -> Result<Sheet, AllocError> {
    Ok(Sheet {
        path: Vec::from_slice(alloc, path.as_bytes())?,
        bytes: Vec::from_slice(alloc, bytes)?,
    })
}

// The bytes of the newest file of this name.
fn read_from(alloc: Global, sheets: &[Sheet], path: &str) -> Result<Vec<u8>, ShelfFault> {
    for sheet in sheets.iter().rev() {
        if sheet.path.as_slice() == path.as_bytes() {
            return match Vec::from_slice(alloc, sheet.bytes.as_slice()) {
                Ok(bytes) => Ok(bytes),
                Err(_) => Err(ShelfFault::Memory),
            };
        }
    }
    Err(ShelfFault::Absent)
}

// The fault of this name.
fn fault_named(path: &str) -> Option<ShelfFault> {
    for (name, fault) in &FAULTS {
        if *name == path {
            return Some(*fault);
        }
    }
    None
}
