//! The rows that an operator reads.

use crate::board::{Allowance, SeatRow};
use std::alloc::AllocError;
use std::fmt::Write;

/// What the columns of the rows are. Lines, elements and work are what is left. `faults` is how many faults in a row
/// were answered, and `seconds` how long all answers took.
pub const HEAD: &str = "user seat since port lines elements work fault faults seconds\n";

/// Writes the row of a user. `since` is the time of the row, and `fault` the word of its fault.
pub fn write_row(
    text: &mut String,
    user: &str,
    row: &SeatRow,
    since: &str,
    fault: &str,
) -> Result<(), AllocError> {
    text.push_str(user)?;
    text.push_str(if row.is_here { " here " } else { " away " })?;
    text.push_str(since)?;
    write_port(text, row)?;
    write_left(text, row.left)?;
    text.push_str(" ")?;
    text.push_str(fault)?;
    write_number(text, " ", row.in_row)?;
    write_seconds(text, row.micros)
}

// Writes a text and then a number.
fn write_number(text: &mut String, before: &str, number: u64) -> Result<(), AllocError> {
    write!(text, "{before}{number}")?;
    Ok(())
}

fn write_port(text: &mut String, row: &SeatRow) -> Result<(), AllocError> {
    if row.is_here {
        write_number(text, " ", row.port)
    } else {
        text.push_str(" -")
    }
}

fn write_left(text: &mut String, left: Option<Allowance>) -> Result<(), AllocError> {
    match left {
        Some(left) => {
            write_number(text, " ", left.lines)?;
            write_number(text, " ", left.elements)?;
            write_number(text, " ", left.work)
        }
        None => text.push_str(" - - -"),
    }
}

// Writes microseconds as seconds with three digits after the point, and the end of the line.
fn write_seconds(text: &mut String, micros: u64) -> Result<(), AllocError> {
    let (seconds, millis) = (micros / 1_000_000, micros / 1000 % 1000);
    write!(text, " {seconds}.{millis:03}\n")?;
    Ok(())
}
