//! The time in UTC, as it is written.

use jiff_core::civil::DateTime;
use std::alloc::{AllocError, Global};
use std::fmt;
use std::time::Clock;

/// A time in UTC to the second, as in 2026-11-26T14:37:15Z, or a dash if the clock can't be read.
#[derive(Drop)]
pub struct Stamp(Option<DateTime>);

// A time, with this character between hours, minutes and seconds.
#[derive(Drop)]
struct Written {
    time: DateTime,
    between: char,
}

impl Stamp {
    pub fn now(clock: &impl Clock) -> Stamp {
        match clock.since_1970() {
            Ok(since) => Stamp(DateTime::from_nanosecond(
                i128::from(since.as_secs()) * 1_000_000_000,
            ).ok()),
            Err(_) => Stamp(None),
        }
    }

    /// The time this number of seconds after the beginning of 1970.
    pub fn at(second: u64) -> Stamp {
        Stamp(DateTime::from_nanosecond(i128::from(second) * 1_000_000_000).ok())
    }

    /// The time as a part of a file's name, as in 2026-11-26T14-37-15Z. There is none if the clock can't be read.
    pub fn for_name(self, alloc: Global) -> Result<Option<String>, AllocError> {
        match self.0 {
            Some(time) => {
                let written = Written { time, between: '-' };
                Ok(Some(format!(in alloc; "{written}")?))
            }
            None => Ok(None),
        }
    }
}

impl fmt::Display for Stamp {
    fn fmt<W: fmt::Write>(&self, f: &mut fmt::Formatter<W>) -> fmt::Result {
        match self.0 {
            Some(time) => {
                let written = Written { time, between: ':' };
                write!(f, "{written}")
            }
            None => f.write_str("-"),
        }
    }
}

impl fmt::Display for Written {
    fn fmt<W: fmt::Write>(&self, f: &mut fmt::Formatter<W>) -> fmt::Result {
        let DateTime { date, time } = self.time;
        let (year, month, day) = (date.year, date.month, date.day);
        let (hour, minute, second) = (time.hour, time.minute, time.second);
        let between = self.between;
        write!(
            f,
            "{year:04}-{month:02}-{day:02}T{hour:02}{between}{minute:02}{between}{second:02}Z"
        )
    }
}
