//! The bytes of a file of lines: read as lines, and made of lines.
ghost use Rattle.std.specs.Prelude.{◌≡◌, ◌<◌, ◌++◌, [], ◌∷◌, Some, length, take, map, slice_index};
ghost use Rattle.std.specs.Prelude.{IfOk, IfSome, IfNone, OnOk};
ghost use Rattle.nesl_keep.specs.Scroll.{kept, lines_from, blocks, at_rest, IsLine};

use memchr::memchr;
use std::alloc::{AllocError, Global};

/// The lines of a file, and the file at rest that has just these.
#[derive(Drop)]
pub struct Layout {
    /// The lines, the first one first.
    pub lines: Vec<Vec<u8>>,
    /// All bytes of the file at rest.
    pub file: Vec<u8>,
}

/// Reads the lines of a file that a crash may have left, and makes the file at rest that has just these.
pub fn lay(alloc: Global, bytes: &[u8]) -> Result<Layout, AllocError>
    ensures lines { IfOk result (λ layout. map (λ v. v.items) layout.lines.items ≡ kept bytes.now) }
    ensures file { IfOk result (λ layout. layout.file.items ≡ at_rest (kept bytes.now)) }
{
    let lines = read_lines(alloc, bytes)?;
    let mut file = make_blocks(alloc, &lines)?;
    file.push(b'.')?;
    Ok(Layout { lines, file })
}

/// Makes a file at rest that has one line.
pub fn make_file(alloc: Global, line: &[u8]) -> Result<Vec<u8>, AllocError>
    ensures { IfOk result (λ file. file.items ≡ at_rest (line.now ∷ [])) }
{
    let mut file = Vec::new(alloc);
    put_block(&mut file, line)?;
    file.push(b'.')?;
    Ok(file)
}

/// Has a block be what is to come after a closed gate before that is opened: a line, an LF and the next closed gate.
pub fn fill_block(block: &mut Vec<u8>, line: &[u8]) -> Result<(), AllocError>
    ensures { OnOk result (block.new.items ≡ line.now ++ 10 ∷ 46 ∷ []) }
{
    block.clear();
    block.extend_from_slice(line)?;
    block.push(b'\n')?;
    block.push(b'.')?;
    Ok(())
}

// Makes open blocks of these lines.
#[tactic(auto, using(crate::proofs::Lines::add_block))]
fn make_blocks(alloc: Global, lines: &[Vec<u8>]) -> Result<Vec<u8>, AllocError>
    ensures { IfOk result (λ file. file.items ≡ blocks (map (λ v. v.items) lines.now)) }
{
    let mut file = Vec::new(alloc);
    let mut rest = lines;
    while let [line, after @ ..] = rest {
        put_block(&mut file, line)?;
        rest = after;
    }
    Ok(file)
}

// Adds an open block.
fn put_block(file: &mut Vec<u8>, line: &[u8]) -> Result<(), AllocError>
    ensures { OnOk result (file.new.items ≡ file.old.items ++ 62 ∷ (line.now ++ 10 ∷ [])) }
{
    file.push(b'>')?;
    file.extend_from_slice(line)?;
    file.push(b'\n')?;
    Ok(())
}

/// Reads the lines of a file that a crash may have left.
#[tactic(auto, using(crate::proofs::Lines::opened, crate::proofs::Lines::closed))]
pub fn read_lines(alloc: Global, bytes: &[u8]) -> Result<Vec<Vec<u8>>, AllocError>
    ensures { IfOk result (λ lines. map (λ v. v.items) lines.items ≡ kept bytes.now) }
{
    let mut lines = Vec::new(alloc);
    let mut rest = bytes;
    while let [b'>', after @ ..] = rest {
        let Some(first) = split_line(after) else {
            return Ok(lines);
        };
        lines.push(first.line.to_vec(alloc)?)?;
        rest = first.rest;
    }
    Ok(lines)
}

// A line, and what comes after its LF.
#[derive(Drop)]
struct Split<'a> {
    line: &'a [u8],
    rest: &'a [u8],
}

// Splits off the line that ends at the first LF.
#[tactic(auto, using(crate::proofs::Lines::read_first, crate::proofs::Lines::read_none))]
fn split_line(bytes: &[u8]) -> Option<Split>
    ensures some { IfSome result (λ first. (lines_from (Some []) bytes.now ≡ first.line.now ∷ kept first.rest.now)
        × (length first.rest.now < length bytes.now)) }
    ensures none { IfNone result (lines_from (Some []) bytes.now ≡ []) }
{
    let Some(end) = find_feed(bytes) else {
        return None;
    };
    Some(Split {
        line: &bytes[..end],
        rest: &bytes[end + 1..],
    })
}

// Finds the first LF.
fn find_feed(bytes: &[u8]) -> Option<usize>
    ensures some { IfSome result (λ place. (place < length bytes.now) × (slice_index bytes.now place ≡ 10)
        × IsLine (take place bytes.now)) }
    ensures none { IfNone result (IsLine bytes.now) }
{
    memchr(b'\n', bytes)
}
