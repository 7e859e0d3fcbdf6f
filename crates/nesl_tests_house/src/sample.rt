//! Two users, and what they say.
use crate::granting::Granting;
use nesl_eval_helpers::Free;
use nesl_house::house::House;
use nesl_house::lease::Receipt;
use nesl_house::table::Table;
use nesl_session::limits::Limits;
use std::alloc::{AllocError, Global};
use std::sync::Wait;
use std::thread::Threads;

/// The limits of the program.
pub const LIMITS: Limits = Limits {
    line_work: 1_000_000,
    session_work: 100_000_000,
    elements: 100_000,
    transcript_lines: 10_000,
    transcript_bytes: 1_048_576,
};

/// The names between the blanks.
pub fn roster(alloc: Global, names: &str) -> Result<Vec<Vec<u8>>, AllocError> {
    let mut roster = Vec::new(alloc);
    for name in names.split(' ') {
        roster.push(Vec::from_slice(alloc, name.as_bytes())?)?;
    }
    Ok(roster)
}

/// A house of ann and bob.
pub fn house(alloc: Global) -> Result<House, AllocError> {
    house_of(alloc, "ann bob", LIMITS)
}

/// A table of ann and bob.
pub fn table(alloc: Global) -> Result<Table, AllocError> {
    let names = roster(alloc, "ann bob")?;
    Table::new(alloc, names.as_slice(), LIMITS)
        .ok()
        .ok_or(AllocError)
}

/// A house of these users.
pub fn house_of(alloc: Global, names: &str, limits: Limits) -> Result<House, AllocError> {
    let names = roster(alloc, names)?;
    House::new(alloc, names.as_slice(), limits)
        .ok()
        .ok_or(AllocError)
}

/// How many lines the user's session stored.
pub fn lines_of(house: &House, user: &[u8]) -> Option<usize> {
    house.session(user).map(|session| session.lines().len())
}

/// Whether this is the reply that a row `LINE => REPLY` wants.
pub fn is_reply(bytes: &[u8], reply: &str) -> bool {
    bytes.strip_suffix(b"\n") == Some(reply.as_bytes())
}

/// Says lines under one lease, each row `LINE => REPLY`. There is no receipt if the session is away or a reply differs.
pub fn said<R: Threads + Wait + Sync>(
    rt: &R,
    alloc: Global,
    table: &Table,
    user: &str,
    rows: &str,
) -> Option<Receipt> {
    let Ok(mut lease) = table.take(rt, user.as_bytes()) else {
        return None;
    };
    let helpers = Granting::always();
    let mut are_answered = true;
    for row in rows.lines() {
        let (line, reply) = row.split_once(" => ").unwrap_or((row, ""));
        let answer = lease.line_split(rt, alloc, line.as_bytes(), &helpers, &Free);
        are_answered &= is_reply(answer.bytes(), reply);
    }
    let receipt = table.give(rt, lease);
    if are_answered { Some(receipt) } else { None }
}
