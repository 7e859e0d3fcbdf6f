//! A file of lines. A block is a gate, a line and an LF, and counts if its gate is open (`>`). A closed gate (`.`) is
//! after the last block, and on the disk before anything is written after it.
ghost use Rattle.std.specs.Prelude.{◌≡◌, ◌+◌, ◌<◌, ◌≤◌, ◌^◌, ◌++◌, [], ◌∷◌, length, map};
ghost use Rattle.std.specs.Prelude.{IfOk, IfErr, OnOk, IsErrAnd, IsErrOf};
ghost use Rattle.nesl_keep.specs.Device.{Only, LeavesOnly, Torn, Holds, HasCause, IsFailed};
ghost use Rattle.nesl_keep.specs.Scroll.{kept, blocks, at_rest, device_of, IsLine, IsSettled, IsAtRest, IsOneOf};
ghost use Rattle.nesl_keep.specs.Scroll.{IsBeforeOrAfter, IsBeforeOrAnew, HasSameLines};

use crate::blocks::{Layout, fill_block, lay, make_file};
use crate::device::{Device, DeviceError, Opened};
use std::alloc::Global;

// About as long as a file may be. No sum of lengths wraps below it.
const MOST_BYTES: usize = 1 << 60;

// The room that a block has from the start, in bytes: for a line of 65,536 bytes, an LF and a gate. So no such line
// needs memory when it is added.
const BLOCK_ROOM: usize = (1 << 16) + 2;

/// A file of lines that is open.
#[derive(Drop)]
pub struct Scroll<D: Device> {
    device: D,
    // Where the closed gate is.
    end: usize,
    // What was written of the last line. Its room serves the next one.
    block: Vec<u8>,
}

// Writes, and has it on the disk. A crash at any moment leaves the write torn, or the file as it was before, which is a
// torn one too.
fn write_through<D: Device>(device: &mut D, at: usize, bytes: &[u8]) -> Result<(), DeviceError>
    requires at { at ≤ length (D.seen device.old) }
    requires durable { Only (D.seen device.old) (D.may_leave device.old) }
    ensures written { OnOk result (Holds (D.seen device.old) at bytes.now (D.seen device.new)) }
    ensures durable { OnOk result (Only (D.seen device.new) (D.may_leave device.new)) }
    ensures any_moment { LeavesOnly D.moment D.left_since device.old device.new
        (Torn at (length bytes.now) (D.seen device.old)) }
    ensures cause { HasCause (D.faults device.old) (D.faults device.new) result }
{
    device.write_at(at, bytes)?;
    device.sync()
}

impl<D: Device> Scroll<D> {
    /// Its file.
    pub fn device(&self) -> &D
        ensures { result.now ≡ device_of self.now }
    {
        &self.device
    }

    /// Its file, of which no more lines are heard.
    pub fn into_device(self) -> D
        ensures { result ≡ device_of self }
    {
        let Scroll {
            device,
            end: _,
            block: _,
        } = self;
        device
    }

    /// Adds a line. From `Ok` on each crash leaves a file that has it. At `Err`, open the file again.
    pub fn push(&mut self, line: &[u8]) -> Result<(), DeviceError>
        requires settled { IsSettled D.seen D.may_leave self.old }
        requires line { IsLine line.now }

        ensures added { OnOk result (IsSettled D.seen D.may_leave self.new
            × (kept (D.seen (device_of self.new)) ≡ kept (D.seen (device_of self.old)) ++ line.now ∷ [])) }

        // A crash at any moment of the call leaves the lines from before it, with the new one or without.
        ensures any_moment { LeavesOnly D.moment D.left_since (device_of self.old) (device_of self.new)
            (IsBeforeOrAfter (kept (D.seen (device_of self.old))) line.now) }

        // It doesn't give up by itself.
        ensures later { D.faults (device_of self.old) ≤ D.faults (device_of self.new) }
        ensures failed { IsErrAnd result IsFailed → D.faults (device_of self.old) < D.faults (device_of self.new) }
        ensures full { IsErrOf result DeviceError.Full
            → 2 ^ 60 < length (D.seen (device_of self.old)) + length line.now }
    {
        if self.end >= MOST_BYTES || line.len() >= MOST_BYTES - self.end {
            return Err(DeviceError::Full);
        }
        fill_block(&mut self.block, line)?;
        write_through(&mut self.device, self.end + 1, &self.block)?;
        write_through(&mut self.device, self.end, b">")?;
        self.end += line.len() + 2;
        Ok(())
    }

    /// Puts one line in the place of all. From `Ok` on each crash leaves just that. At `Err`, open the file again.
    pub fn restart(&mut self, alloc: Global, head: &[u8]) -> Result<(), DeviceError>
        requires settled { IsSettled D.seen D.may_leave self.old }
        requires line { IsLine head.now }

        ensures anew { OnOk result (IsSettled D.seen D.may_leave self.new
            × (kept (D.seen (device_of self.new)) ≡ head.now ∷ [])) }

        // A crash at any moment of the call leaves the lines from before it, or the one alone.
        ensures any_moment { LeavesOnly D.moment D.left_since (device_of self.old) (device_of self.new)
            (IsBeforeOrAnew (kept (D.seen (device_of self.old))) head.now) }

        // It doesn't give up by itself.
        ensures cause { HasCause (D.faults (device_of self.old)) (D.faults (device_of self.new)) result }
    {
        let file = make_file(alloc, head)?;
        self.device.replace(&file)?;
        self.end = file.len() - 1;
        Ok(())
    }
}

/// A file whose lines were read, and which is at rest.
#[derive(Drop)]
pub struct Recovered<D: Device> {
    /// The file, to which lines may be added.
    pub scroll: Scroll<D>,
    /// Its lines, the first one first.
    pub lines: Vec<Vec<u8>>,
}

/// A file that isn't at rest, and why.
#[derive(Drop)]
pub struct Unrecovered<D> {
    /// The file. Open it again before its lines are read.
    pub device: D,
    /// What kept it from being at rest.
    pub error: DeviceError,
}

/// Reads the lines of a file that a crash may have left, and writes it anew unless it is at rest. It may crash too.
pub fn recover<D: Device>(alloc: Global, opened: Opened<D>) -> Result<Recovered<D>, Unrecovered<D>>
    requires read { opened.bytes.items ≡ D.seen opened.device }
    requires durable { Only (D.seen opened.device) (D.may_leave opened.device) }

    ensures lines { IfOk result (λ r. map (λ v. v.items) r.lines.items ≡ kept (D.seen opened.device)) }
    ensures settled { IfOk result (λ r. IsSettled D.seen D.may_leave r.scroll) }
    ensures same { IfOk result (λ r. HasSameLines (D.seen opened.device) (D.seen (device_of r.scroll))) }

    // A crash at any moment leaves the same lines.
    ensures any_moment { IfOk result (λ r. LeavesOnly D.moment D.left_since opened.device (device_of r.scroll)
        (HasSameLines (D.seen opened.device))) }
    ensures any_moment_err { IfErr result (λ u. LeavesOnly D.moment D.left_since opened.device u.device
        (HasSameLines (D.seen opened.device))) }

    // A file at rest isn't written.
    ensures untouched { IsAtRest (D.seen opened.device) → IfOk result (λ r. device_of r.scroll ≡ opened.device) }
    ensures untouched_err { IsAtRest (D.seen opened.device) → IfErr result (λ u. u.device ≡ opened.device) }

    // It doesn't give up by itself.
    ensures failed { IfErr result (λ u. IsFailed u.error → D.faults opened.device < D.faults u.device) }
    ensures full { IfErr result (λ u. u.error ≡ DeviceError.Full → ⊥) }
{
    let Opened { mut device, bytes } = opened;
    match rewrite(alloc, &mut device, &bytes) {
        Ok(Rewritten { lines, end, block }) => Ok(Recovered {
            scroll: Scroll { device, end, block },
            lines,
        }),
        Err(error) => Err(Unrecovered { device, error }),
    }
}

// The lines of a file, where its closed gate is now, and room for the next block.
#[derive(Drop)]
struct Rewritten {
    lines: Vec<Vec<u8>>,
    end: usize,
    block: Vec<u8>,
}

// Puts the file at rest that has the same lines in the place of a file.
fn rewrite<D: Device>(alloc: Global, device: &mut D, bytes: &[u8]) -> Result<Rewritten, DeviceError>
    requires read { bytes.now ≡ D.seen device.old }
    requires durable { Only (D.seen device.old) (D.may_leave device.old) }
    ensures lines { IfOk result (λ r. map (λ v. v.items) r.lines.items ≡ kept (D.seen device.old)) }
    ensures end { IfOk result (λ r. r.end ≡ length (blocks (kept (D.seen device.old)))) }
    ensures file { OnOk result (D.seen device.new ≡ at_rest (kept (D.seen device.old))) }
    ensures durable { OnOk result (Only (D.seen device.new) (D.may_leave device.new)) }
    ensures any_moment { LeavesOnly D.moment D.left_since device.old device.new (HasSameLines (D.seen device.old)) }
    ensures untouched { IsAtRest (D.seen device.old) → device.new ≡ device.old }
    ensures cause { HasCause (D.faults device.old) (D.faults device.new) result }
{
    let block = Vec::with_capacity(alloc, BLOCK_ROOM)?;
    let Layout { lines, file } = lay(alloc, bytes)?;
    put_anew(device, bytes, &file)?;
    let end = file.len() - 1;
    Ok(Rewritten { lines, end, block })
}

// Has the file be these bytes. It isn't written if it is so already, which saves syncs and needs no room on the disk.
fn put_anew<D: Device>(device: &mut D, bytes: &[u8], file: &[u8]) -> Result<(), DeviceError>
    requires read { bytes.now ≡ D.seen device.old }
    requires durable { Only (D.seen device.old) (D.may_leave device.old) }
    ensures written { OnOk result (D.seen device.new ≡ file.now) }
    ensures durable { OnOk result (Only (D.seen device.new) (D.may_leave device.new)) }
    ensures any_moment { LeavesOnly D.moment D.left_since device.old device.new (IsOneOf bytes.now file.now) }
    ensures untouched { bytes.now ≡ file.now → device.new ≡ device.old }
    ensures cause { HasCause (D.faults device.old) (D.faults device.new) result }
{
    if file == bytes {
        return Ok(());
    }
    device.replace(file)
}
