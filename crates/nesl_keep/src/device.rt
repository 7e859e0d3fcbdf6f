//! The file of a user, as a keeper sees it: what it has, and what a crash may leave.
ghost use Rattle.std.specs.Prelude.{◌≡◌, ◌≤◌, List, ℕ, length, IfOk, OnOk};
ghost use Rattle.nesl_keep.specs.declared.device.DeviceError.TheVariants.{Memory};
ghost use Rattle.nesl_keep.specs.Device.{Only, Follows, Torn, Replaced, Holds, Elapses, HasCause};

use std::alloc::{AllocError, AllocFailed, Global};

/// Why a device didn't do what it was asked for.
#[derive(Clone, Copy, Debug, PartialEq, Eq)]
pub enum DeviceError {
    /// Memory ran out.
    Memory,
    /// The disk failed. The number is that of the system's error, if there was one.
    Failed(Option<i32>),
    /// The file would be longer than 2^60 bytes.
    Full,
}

impl From<AllocError> for DeviceError {
    ghost from_gives = { λ _ e. e ≡ Memory };

    fn from(_: AllocError) -> Self {
        DeviceError::Memory
    }
}

impl<T: Drop> From<AllocFailed<T>> for DeviceError {
    ghost from_gives = { λ _ e. e ≡ Memory };

    fn from(_: AllocFailed<T>) -> Self {
        DeviceError::Memory
    }
}

/// One file. Nobody else writes it.
pub trait Device {
    /// The bytes that the file has, as long as there is no crash.
    ghost seen: { Self → List ℕ };

    /// What a crash at this moment may leave.
    ghost may_leave: { Self → List ℕ → Type 0 };

    /// The moment, as a number that doesn't fall.
    ghost moment: { Self → ℕ };

    /// What a crash at some moment from that one on might have left, during a call or between two.
    ghost left_since: { Self → ℕ → List ℕ → Type 0 };

    /// How often the disk has failed.
    ghost faults: { Self → ℕ };

    /// Writes over what is there, and past the end. Until a sync, a crash may leave any bytes in the range.
    fn write_at(&mut self, at: usize, bytes: &[u8]) -> Result<(), DeviceError>
        requires { at ≤ length (seen self.old) }
        ensures written { OnOk result (Holds (seen self.old) at bytes.now (seen self.new)) }
        ensures crash { Follows (Torn at (length bytes.now)) (may_leave self.old) (may_leave self.new) }
        ensures time { Elapses (moment self.old) (moment self.new) (left_since self.old) (left_since self.new)
            (may_leave self.new) }
        ensures cause { HasCause (faults self.old) (faults self.new) result };

    /// Puts other bytes in the place of all: a crash leaves what it might have left, or just these.
    fn replace(&mut self, bytes: &[u8]) -> Result<(), DeviceError>
        ensures written { OnOk result (seen self.new ≡ bytes.now) }
        ensures durable { OnOk result (Only bytes.now (may_leave self.new)) }
        ensures crash { Replaced bytes.now (may_leave self.old) (may_leave self.new) }
        ensures time { Elapses (moment self.old) (moment self.new) (left_since self.old) (left_since self.new)
            (may_leave self.new) }
        ensures cause { HasCause (faults self.old) (faults self.new) result };

    /// After it, a crash leaves what the file has.
    fn sync(&mut self) -> Result<(), DeviceError>
        ensures durable { OnOk result (Only (seen self.old) (may_leave self.new)) }
        ensures seen { seen self.new ≡ seen self.old }
        ensures crash { (c : List ℕ) → may_leave self.new c → may_leave self.old c }
        ensures time { Elapses (moment self.old) (moment self.new) (left_since self.old) (left_since self.new)
            (may_leave self.new) }
        ensures cause { HasCause (faults self.old) (faults self.new) result };

    /// This moment is one of those since an earlier one.
    ghost counts_now: { (file : Self) (t : ℕ) (c : List ℕ) → t ≤ moment file → may_leave file c → left_since file t c };

    /// Since this moment there is no other.
    ghost only_now: { (file : Self) (c : List ℕ) → left_since file (moment file) c → may_leave file c };
}

/// A file that was opened, and what a read of it returned.
#[derive(Drop)]
pub struct Opened<D> {
    /// The file.
    pub device: D,
    /// All its bytes.
    pub bytes: Vec<u8>,
}

/// The files of users.
pub trait Folder {
    /// A file of these.
    type Device: Device + Drop;

    /// Opens the file of a user. A file that isn't there yet has no bytes. The first `replace` makes it.
    fn open(&self, alloc: Global, user: &[u8]) -> Result<Opened<Self::Device>, DeviceError>
        ensures seen { IfOk result (λ o. o.bytes.items ≡ Self.Device.seen o.device) }
        ensures rests { IfOk result (λ o. Only (Self.Device.seen o.device) (Self.Device.may_leave o.device)) };
}
