//! The calls that a file was sent. They are recorded for proofs alone, which takes no memory and no time.
ghost use Rattle.std.specs.Prelude.{◌≡◌, List, [], ◌∷◌};
ghost use Rattle.std.specs.Borrow.{ftrue};
ghost use Rattle.nesl_keep_file.specs.Events.{Event, events_code};

use std::marker::Model;

/// What came of a call.
#[derive(Clone, Copy, Debug, PartialEq, Eq)]
pub enum Outcome {
    /// It did what it was asked for.
    Done,
    /// It failed, and may have done a part of it.
    Failed,
}

/// A call, with what it was given.
#[derive(Clone, Copy, Drop)]
pub enum Call<'x> {
    /// The file and its folder were synced, and then these bytes were read.
    Open(&'x [u8]),
    /// Write these bytes at an offset.
    Write(usize, &'x [u8]),
    /// Put these bytes in the place of all.
    Replace(&'x [u8]),
    /// Bring the file to the disk.
    Sync,
}

/// The calls so far with their outcomes, the newest first.
#[derive(Drop)]
pub struct Record {
    pub ghost events: { List Event } by { events_code },
}

impl Model for Record {
    ghost also_owns = { λ _. ftrue };
}

impl Record {
    ghost use Rattle.nesl_keep_file.specs.Calls.{event_of};

    /// The record of a file that was sent no call.
    pub(crate) fn new() -> Record
        ensures { result.events ≡ [] }
    {
        Record {}
    }

    /// This record with one more call.
    pub(crate) fn then(&self, _call: &Call<'_>, _outcome: &Outcome) -> Record
        ensures { result.events ≡ event_of _call.now _outcome.now ∷ self.now.events }
    {
        Record {}
    }
}
