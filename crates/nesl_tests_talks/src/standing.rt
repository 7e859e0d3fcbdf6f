//! What sessions are.
use crate::told::put;
use nesl_house::house::House;
use nesl_session::limits::Remaining;
use nesl_session::session::Session;
use std::alloc::{AllocError, Global};

/// Ann and bob.
pub fn roster(alloc: Global) -> Result<Vec<Vec<u8>>, AllocError> {
    let mut roster = Vec::new(alloc);
    roster.push(Vec::from_slice(alloc, b"ann")?)?;
    roster.push(Vec::from_slice(alloc, b"bob")?)?;
    Ok(roster)
}

/// The base, what was cleared, how many lines are stored and bytes pending, what is left, and how many names are bound.
pub type Numbers = (u64, u64, usize, usize, Remaining, usize);

fn numbers_of(session: &Session) -> Numbers {
    let mut bound = 0usize;
    for _ in session.bindings() {
        bound = bound.saturating_add(1);
    }
    (
        session.base(),
        session.cleared(),
        session.lines().len(),
        session.pending().len(),
        session.remaining(),
        bound,
    )
}

/// The numbers of both sessions. This takes no memory.
pub fn numbers(house: &House) -> [Option<Numbers>; 2] {
    [
        house.session(b"ann").map(numbers_of),
        house.session(b"bob").map(numbers_of),
    ]
}

// What a session has left, after a name.
fn head_of(alloc: Global, name: &str, session: &Session) -> Result<String, AllocError> {
    let (base, cleared, left) = (session.base(), session.cleared(), session.remaining());
    format!(in alloc;
        "{name}: base {base}, cleared {cleared}; left: work {}, elements {}, lines {}, bytes {}; bound:",
        left.work, left.elements, left.lines, left.bytes
    )
}

// Writes the names that are bound, what is pending, and the lines that are stored.
fn put_stored(session: &Session, out: &mut Vec<u8>) -> Result<(), AllocError> {
    for name in session.bindings() {
        out.extend_from_slice(b" ")?;
        out.extend_from_slice(name)?;
    }
    out.extend_from_slice(b"; pending \"")?;
    out.extend_from_slice(session.pending())?;
    out.extend_from_slice(b"\"\n")?;
    for line in session.lines() {
        out.extend_from_slice(b"  ")?;
        out.extend_from_slice(line.as_slice())?;
        out.extend_from_slice(b"\n")?;
    }
    Ok(())
}

/// Writes what the sessions are, with the lines that they store.
pub fn put_standing(alloc: Global, house: &House, out: &mut Vec<u8>) -> Result<(), AllocError> {
    for name in ["ann", "bob"] {
        if let Some(session) = house.session(name.as_bytes()) {
            put(out, head_of(alloc, name, session))?;
            put_stored(session, out)?;
        }
    }
    Ok(())
}
