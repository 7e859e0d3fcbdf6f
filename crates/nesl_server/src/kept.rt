//! The folders of kept sessions on this machine.

ghost use Rattle.std.specs.Prelude.{⊤};

use crate::disk::Disk;
use nesl_keep_file::{ListedNames, LookFault, list_names, put_aside, read_file};
use nesl_kept::folder::{FolderNames, KeptFolders, PlaceFault, Warning};
use nesl_service_records::system::SystemError;
use nesl_system::stamp::Stamp;
use std::alloc::Global;
use std::fs::File;
use std::io::Eprint;
use std::rt::Files;
use std::time::Clock;

impl<R: Files<File = File> + Alloc + Clock + Eprint + Clone + Drop> KeptFolders for Disk<'_, R> {
    ghost gave = { λ _ _ _ _. ⊤ };

    fn names(&self, alloc: Global, folder: &str) -> Result<FolderNames, PlaceFault> {
        match list_names(self.rt, alloc, folder) {
            Ok(ListedNames { names, unreadable }) => Ok(FolderNames {
                texts: names,
                unreadable,
            }),
            Err(fault) => Err(place_fault(fault)),
        }
    }

    fn read(&self, alloc: Global, folder: &str, user: &str) -> Result<Vec<u8>, PlaceFault> {
        read_file(self.rt, alloc, folder, user).map_err(place_fault)
    }

    fn put_aside(&self, alloc: Global, folder: &str, user: &str) -> Result<String, PlaceFault> {
        match Stamp::now(self.rt).for_name(alloc)? {
            Some(time) => {
                put_aside(self.rt, alloc, folder, user, time.as_str()).map_err(place_fault)
            }
            None => Err(PlaceFault::NoClock),
        }
    }

    fn warn(&self, warning: Warning<'_>) {
        let _ = self.rt.eprintln(warning).is_ok();
    }
}

// Returns the fault of a folder or a file, as it is shown.
fn place_fault(fault: LookFault) -> PlaceFault {
    match fault {
        LookFault::Memory => PlaceFault::Memory,
        LookFault::NoFolder => PlaceFault::NoFolder,
        LookFault::Absent => PlaceFault::Absent,
        LookFault::Folder => PlaceFault::Folder,
        LookFault::Link => PlaceFault::Link,
        LookFault::Irregular => PlaceFault::Irregular,
        LookFault::Large => PlaceFault::Large,
        LookFault::Taken => PlaceFault::Taken,
        LookFault::Failed(Some(code)) => PlaceFault::Failed(SystemError { code }),
        LookFault::Failed(None) => PlaceFault::Refused,
    }
}
