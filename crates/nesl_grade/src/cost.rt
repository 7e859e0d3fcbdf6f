//! The costs at the ends of replies.
ghost use Rattle.std.specs.Prelude.{◌≡◌, ◌≤◌, ◌++◌, ◌↔◌, IfOk, IfSome, IsTrue, string_bytes};
ghost use Rattle.nesl_grade.specs.Graded.{Says, cost_text, measured};

use nesl_exercise::measure::Measure;
use std::alloc::{AllocError, Global};

/// What a reply with a value says: the bytes before its cost, and the cost.
#[derive(Clone, Copy)]
pub struct Costed<'a> {
    pub front: &'a [u8],
    pub work: u64,
    pub depth: u64,
}

/// Splits the cost off a reply, if the reply has one.
pub fn said_in<'a>(alloc: Global, reply: &'a [u8]) -> Result<Option<Costed<'a>>, AllocError>
    ensures { IfOk result (λ said. IfSome said (λ s. Says reply.now s.front.now s.work s.depth)) }
{
    let Some((work, depth)) = numbers_in(reply) else {
        return Ok(None);
    };
    let text = cost_text(alloc, work, depth)?;
    match front_before(reply, text.as_slice()) {
        Some(front) => Ok(Some(Costed { front, work, depth })),
        None => Ok(None),
    }
}

// The last two numbers of a text.
fn numbers_in(text: &[u8]) -> Option<(u64, u64)> {
    let text = text.strip_suffix(b")\n".as_slice())?;
    let (rest, depth) = last_number(text)?;
    let rest = rest.strip_suffix(b", depth ".as_slice())?;
    let (_, work) = last_number(rest)?;
    Some((work, depth))
}

// Splits the digits at the end off a text.
fn last_number(text: &[u8]) -> Option<(&[u8], u64)> {
    let start = match text.iter().rposition(|byte| !byte.is_ascii_digit()) {
        Some(place) => place.saturating_add(1),
        None => 0,
    };
    let digits = str::from_utf8(text.get(start..)?).ok()?;
    let number = digits.parse::<u64>().ok()?;
    Some((text.get(..start)?, number))
}

fn cost_text(alloc: Global, work: u64, depth: u64) -> Result<Vec<u8>, AllocError>
    ensures { IfOk result (λ text. text.items ≡ cost_text work depth) }
{
    let mut text = Vec::from_slice(alloc, b" (work ")?;
    let work = work.to_string(alloc)?;
    text.extend_from_slice(work.as_bytes())?;
    text.extend_from_slice(b", depth ")?;
    let depth = depth.to_string(alloc)?;
    text.extend_from_slice(depth.as_bytes())?;
    text.extend_from_slice(b")\n")?;
    Ok(text)
}

/// What comes before an end of a text.
pub fn front_before<'a>(text: &'a [u8], end: &[u8]) -> Option<&'a [u8]>
    ensures { IfSome result (λ front. text.now ≡ front.now ++ end.now) }
{
    let start = text.len().checked_sub(end.len())?;
    let (front, rest) = text.split_at(start);
    if rest == end { Some(front) } else { None }
}

/// The cost that a test asks for.
pub fn measured(measure: Measure, work: u64, depth: u64) -> u64
    ensures { result ≡ measured measure work depth }
{
    match measure {
        Measure::Work => work,
        Measure::Depth => depth,
    }
}

/// Whether a cost is within a bound.
pub fn is_within(cost: u64, bound: u128) -> bool
    ensures { IsTrue result ↔ (cost ≤ bound) }
{
    u128::from(cost) <= bound
}
