//! Kept sessions as submissions.
ghost use Rattle.std.specs.Prelude.{◌≡◌, IfOk, drop, map};
ghost use Rattle.nesl_grade.specs.Grades.{IsKept, forms_of};

use nesl_gradebook::book::Submitted;
use nesl_keep::blocks::read_lines;
use std::alloc::{AllocError, Global};

/// The beginning of the first line of the file of a kept session.
const HEAD: &[u8] = b"pazkindu ";

/// Why the file of a kept session isn't a submission.
#[derive(Clone, Copy, PartialEq, Eq, Debug)]
pub enum KeptFault {
    /// It isn't the file of a kept session.
    Strange,
    Memory,
}

impl From<AllocError> for KeptFault {
    fn from(_error: AllocError) -> Self {
        KeptFault::Memory
    }
}

/// Returns the submission of the file of a kept session: its lines after the head. What a crash left of a line is
/// none.
pub fn kept_forms(alloc: Global, file: &[u8]) -> Result<Submitted, KeptFault>
    ensures { IfOk result (λ forms. IsKept file.now (forms_of forms)) }
{
    let lines = read_lines(alloc, file)?;
    if !is_kept_session(file, lines.as_slice()) {
        return Err(KeptFault::Strange);
    }
    let own = lines_after_head(alloc, lines.as_slice())?;
    Ok(Submitted::Kept(own))
}

// Whether a file with these lines is that of a kept session: it has a head, or nothing but a closed gate.
fn is_kept_session(file: &[u8], lines: &[Vec<u8>]) -> bool {
    match lines.first() {
        Some(head) => head.as_slice().starts_with(HEAD),
        None => file.is_empty() || file == b".".as_slice(),
    }
}

fn lines_after_head(alloc: Global, lines: &[Vec<u8>]) -> Result<Vec<Vec<u8>>, AllocError>
    ensures { IfOk result (λ own. map (λ line. line.items) own.items ≡ drop 1 (map (λ line. line.items) lines.now)) }
{
    match lines.split_first() {
        Some((_head, own)) => copy_lines(alloc, own),
        None => Ok(Vec::new(alloc)),
    }
}

/// Copies lines.
pub(crate) fn copy_lines(alloc: Global, lines: &[Vec<u8>]) -> Result<Vec<Vec<u8>>, AllocError>
    ensures { IfOk result (λ copy. map (λ line. line.items) copy.items ≡ map (λ line. line.items) lines.now) }
{
    let mut copy = Vec::new(alloc);
    for line in lines {
        copy.push(Vec::from_slice(alloc, line.as_slice())?)?;
    }
    Ok(copy)
}
