//! Reads the head of a request.
ghost use Rattle.std.specs.Prelude.{◌≤◌, length, IfOk};
ghost use Rattle.nesl_web.specs.Route.{HasHead};

use crate::answer::Refusal;
use crate::route::is_whole;
use crate::wire::is_late;
use std::alloc::{AllocError, Global};
use std::io;
use std::io::Read;

/// The most bytes of a head.
const MOST_BYTES: usize = 8192;

/// The most bytes of one read.
const PIECE_BYTES: usize = 1024;

/// Why a head could not be read.
#[derive(Clone, Copy, PartialEq, Eq, Debug)]
pub enum HeadFault {
    /// It is refused.
    Refused(Refusal),
    /// The connection ended or failed, or memory ran out.
    Lost,
}

impl From<Refusal> for HeadFault {
    fn from(refusal: Refusal) -> HeadFault {
        HeadFault::Refused(refusal)
    }
}

impl From<AllocError> for HeadFault {
    fn from(_error: AllocError) -> HeadFault {
        HeadFault::Lost
    }
}

/// Reads a head, and any bytes that come with its end: at most 8 KiB in all. A read that times out ends it.
pub fn read_head<R: Read>(alloc: Global, reader: &mut R) -> Result<Vec<u8>, HeadFault>
    ensures whole { IfOk result (λ bytes. HasHead bytes.items) }
    ensures bound { IfOk result (λ bytes. length bytes.items ≤ MOST_BYTES) }
{
    let mut bytes = Vec::with_capacity(alloc, MOST_BYTES)?;
    'pieces: for _ in 0..MOST_BYTES {
        if bytes.len() >= MOST_BYTES {
            break;
        }
        let room = MOST_BYTES - bytes.len();
        let piece = read_piece(alloc, reader, room)?;
        bytes.extend_from_slice(piece.as_slice())?;
        if piece.contains(&b'\n') && is_whole(bytes.as_slice())? {
            return Ok(bytes);
        }
    }
    Err(HeadFault::Refused(Refusal::Large))
}

// Reads once, at most `room` bytes.
fn read_piece<R: Read>(alloc: Global, reader: &mut R, room: usize) -> Result<Vec<u8>, HeadFault>
    ensures { IfOk result (λ piece. length piece.items ≤ room) }
{
    let mut piece = [0u8; PIECE_BYTES];
    let room = room.min(PIECE_BYTES);
    match reader.read(&mut piece[..room]) {
        Ok(0) => Err(HeadFault::Lost),
        Ok(count) => Ok(Vec::from_slice(alloc, &piece[..count])?),
        Err(error) => Err(fault_of(&error)),
    }
}

// Returns the fault for a read that failed. A timeout is reported to the peer.
fn fault_of(error: &io::Error) -> HeadFault {
    if is_late(error) {
        HeadFault::Refused(Refusal::Slow)
    } else {
        HeadFault::Lost
    }
}
