//! What a file was sent, and whether its disk has failed.
ghost use Rattle.std.specs.Prelude.{◌≡◌};
ghost use Rattle.nesl_keep_file.specs.declared.history.Health.TheVariants.{Working};
ghost use Rattle.nesl_keep_file.specs.Crash.{faults};

use crate::calls::{Call, Outcome, Record};
use nesl_keep::device::DeviceError;
use std::io;

/// Whether a call has failed.
#[derive(Clone, Copy, Debug, PartialEq, Eq)]
pub enum Health {
    /// None has.
    Working,
    /// One has, with this error of the system, if there was one.
    Failed(Option<i32>),
}

/// The calls that a file was sent. After one that failed it is sent no other: the system may forget what a sync that
/// failed was to bring to the disk, so that a second one says nothing.
#[derive(Drop)]
pub struct History {
    record: Record,
    health: Health,
    ghost working: { health ≡ Working → faults record.events ≡ 0 },
}

impl History {
    ghost use Rattle.std.specs.Prelude.{◌∷◌, [], OnOk, OnErr, IfOk, IfErr, is_ok};
    ghost use Rattle.nesl_keep.specs.Device.{IsFailed};
    ghost use Rattle.nesl_keep_file.specs.declared.calls.Outcome.TheVariants.{Done, Failed};
    ghost use Rattle.nesl_keep_file.specs.Events.{opened};
    ghost use Rattle.nesl_keep_file.specs.Calls.{event_of};
    ghost use Rattle.nesl_keep_file.specs.History.{events};

    /// The history of a file that was opened with these bytes.
    pub(crate) fn begin(bytes: &[u8]) -> History
        ensures { events result ≡ opened bytes.now ∷ [] }
    {
        History {
            record: Record::new().then(&Call::Open(bytes), &Outcome::Done),
            health: Health::Working,
        }
    }

    /// Fails if a call has failed, with the same error.
    pub(crate) fn require_working(&self) -> io::Result<()>
        ensures { OnOk result (faults (events self.now) ≡ 0) }
    {
        match self.health {
            Health::Working => Ok(()),
            Health::Failed(Some(number)) => Err(io::Error::from_raw_os_error(number)),
            Health::Failed(None) => Err(io::ErrorKind::Other.into()),
        }
    }

    /// Notes a call with what came of it, and says so to the caller.
    pub(crate) fn note(
        &mut self,
        call: Call<'_>,
        outcome: io::Result<()>,
    ) -> Result<(), DeviceError>
        ensures same { is_ok result ≡ is_ok outcome }
        ensures done { OnOk result (events self.new ≡ event_of call.entry Done ∷ events self.old) }
        ensures failed { OnErr result (events self.new ≡ event_of call.entry Failed ∷ events self.old) }
        ensures error { IfErr result IsFailed }
    {
        match outcome {
            Ok(()) => {
                self.record = self.record.then(&call, &Outcome::Done);
                Ok(())
            }
            Err(error) => {
                let number = error.raw_os_error();
                self.record = self.record.then(&call, &Outcome::Failed);
                self.health = Health::Failed(number);
                Err(DeviceError::Failed(number))
            }
        }
    }
}
