//! Rows of numbers: `1, 2, 4 .. 1024` doubles, and `1, 3 .. 99` steps.

use crate::bytes::{number_of, split_at};
use crate::fault::{Expected, LineFault};
use std::alloc::Global;

// The most numbers of a row.
const MOST: usize = 1000;

// How a row goes on.
#[derive(Clone, Copy)]
enum Pace {
    Steps(u64),
    Doubles,
}

/// Reads a row.
pub fn parse_row(alloc: Global, text: &[u8]) -> Result<Vec<u64>, LineFault> {
    let Some((front, last)) = split_at(text, b"..") else {
        return Err(bad());
    };
    let Some((first, more)) = split_at(front, b",") else {
        return Err(bad());
    };
    let first = number_of(first)?;
    let last = number_of(last)?;
    let pace = pace_of(first, more)?;
    fill(alloc, first, pace, last)
}

fn bad() -> LineFault {
    LineFault::Expected(Expected::Row)
}

// How a row goes on whose numbers after the first are these.
fn pace_of(first: u64, more: &[u8]) -> Result<Pace, LineFault> {
    match split_at(more, b",") {
        Some((second, third)) => {
            let second = number_of(second)?;
            let third = number_of(third)?;
            if is_double(first, second) && is_double(second, third) {
                Ok(Pace::Doubles)
            } else {
                Err(bad())
            }
        }
        None => {
            let second = number_of(more)?;
            match second.checked_sub(first) {
                Some(0) | None => Err(bad()),
                Some(step) => Ok(Pace::Steps(step)),
            }
        }
    }
}

fn is_double(number: u64, other: u64) -> bool {
    number > 0 && number.checked_mul(2) == Some(other)
}

fn fill(alloc: Global, first: u64, pace: Pace, last: u64) -> Result<Vec<u64>, LineFault> {
    let mut row = Vec::new(alloc);
    let mut number = first;
    for _ in 0..=MOST {
        if last < number {
            break;
        }
        row.push(number)?;
        let next = match pace {
            Pace::Steps(step) => number.checked_add(step),
            Pace::Doubles => number.checked_mul(2),
        };
        let Some(next) = next else {
            break;
        };
        number = next;
    }
    if row.is_empty() || row.len() > MOST {
        return Err(bad());
    }
    Ok(row)
}
