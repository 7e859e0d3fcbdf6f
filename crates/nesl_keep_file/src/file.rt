//! The file of a user.
ghost use Rattle.std.specs.Prelude.{◌≡◌, [], ◌∷◌, length, IfOk, OnOk};
ghost use Rattle.nesl_keep_file.specs.Events.{opened};
ghost use Rattle.nesl_keep_file.specs.Crash.{seen, may_leave, left_since, faults};
ghost use Rattle.nesl_keep_file.specs.History.{events};
ghost use Rattle.nesl_keep_file.specs.Moments.{counts_now, only_now};

use crate::calls::Call;
use crate::history::History;
use crate::system::{Storage, fill, read_settled};
use nesl_keep::device::{Device, DeviceError, Opened};
use std::alloc::Global;
use std::fs::File;
use std::io::{self, ErrorKind};
use std::os::unix::fs::FileExt;

/// The most bytes of a file that is opened. A session stores 10,000 lines and 1 MiB of text, and a gate and a line end
/// for each line.
pub(crate) const MOST_BYTES: usize = 1_200_000;

/// Where the file of a user is.
#[derive(Drop)]
pub(crate) struct Place {
    /// The path of the file.
    pub(crate) path: String,
    /// The path of the file that is to replace it.
    pub(crate) beside: String,
    /// The opened folder of both.
    pub(crate) folder: File,
    /// The folder stays locked for as long as this is open.
    pub(crate) lock: File,
}

/// The file of a user. The folder is locked for as long as this lives.
#[derive(Drop)]
pub struct UserFile<'x, R> {
    rt: &'x R,
    place: Place,
    // There is none before the first `replace`.
    file: Option<File>,
    history: History,
}

impl<'x, R: Storage> UserFile<'x, R> {
    /// Opens the file. If it isn't there, none is made: a full disk doesn't matter yet.
    pub(crate) fn open(rt: &'x R, alloc: Global, place: Place) -> io::Result<Opened<Self>>
        ensures { IfOk result (λ o. events o.device.history ≡ opened o.bytes.items ∷ []) }
    {
        let file = match rt.open_file(place.path.as_str()) {
            Ok(file) => Some(file),
            Err(error) if error.kind() == ErrorKind::NotFound => None,
            Err(error) => return Err(error),
        };
        let bytes = match &file {
            Some(file) => read_settled(alloc, file, &place.folder, MOST_BYTES)?,
            None => {
                place.folder.sync_all()?;
                Vec::new(alloc)
            }
        };
        let history = History::begin(&bytes);
        let device = UserFile {
            rt,
            place,
            file,
            history,
        };
        Ok(Opened { device, bytes })
    }

    fn try_write(&self, at: usize, bytes: &[u8]) -> io::Result<()> {
        self.history.require_working()?;
        match &self.file {
            Some(file) => file.write_all_at(bytes, at as u64),
            None => Err(ErrorKind::NotFound.into()),
        }
    }

    // Where no file is, there is nothing to bring to the disk.
    fn try_sync(&self) -> io::Result<()>
        ensures { OnOk result (faults (events self.now.history) ≡ 0) }
    {
        self.history.require_working()?;
        match &self.file {
            Some(file) => file.sync_data(),
            None => Ok(()),
        }
    }

    // Makes a file of these bytes, and gives it the name. The new name is on the disk once the folder is.
    fn try_replace(&self, bytes: &[u8]) -> io::Result<File> {
        self.history.require_working()?;
        let (path, beside) = (self.place.path.as_str(), self.place.beside.as_str());
        self.rt.remove_left_over(beside)?;
        let file = self.rt.make_file(beside)?;
        let placed = match fill(&file, bytes) {
            Ok(()) => self.rt.rename(beside, path),
            Err(error) => Err(error),
        };
        if let Err(error) = placed {
            let _ = self.rt.remove(beside).is_ok();
            return Err(error);
        }
        self.place.folder.sync_all()?;
        Ok(file)
    }
}

impl<R: Storage> Device for UserFile<'_, R> {
    ghost seen = { λ f. seen (events f.history) };

    ghost may_leave = { λ f. may_leave (events f.history) };

    ghost moment = { λ f. length (events f.history) };

    ghost left_since = { λ f. left_since (events f.history) };

    ghost faults = { λ f. faults (events f.history) };

    ghost counts_now = { λ f t c _ now. counts_now (events f.history) t c now };

    ghost only_now = { λ f. only_now (events f.history) };

    fn write_at(&mut self, at: usize, bytes: &[u8]) -> Result<(), DeviceError> {
        let outcome = self.try_write(at, bytes);
        self.history.note(Call::Write(at, bytes), outcome)
    }

    fn replace(&mut self, bytes: &[u8]) -> Result<(), DeviceError> {
        let outcome = match self.try_replace(bytes) {
            Ok(file) => {
                self.file = Some(file);
                Ok(())
            }
            Err(error) => Err(error),
        };
        self.history.note(Call::Replace(bytes), outcome)
    }

    fn sync(&mut self) -> Result<(), DeviceError> {
        let outcome = self.try_sync();
        self.history.note(Call::Sync, outcome)
    }
}
