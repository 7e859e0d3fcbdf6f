//! Writes numbers as a line of JSON.

use crate::text::{Moment, free_threads};
use nesl_service_records::counters::Counters;
use std::alloc::{AllocError, Global};
use std::fmt::Write;
use std::time::Duration;

/// Returns what a monitor reads beside the counters, and then the counters, as one line of JSON without a line end.
pub fn write_line(
    alloc: Global,
    counters: &Counters,
    moment: &Moment<'_>,
) -> Result<String, AllocError> {
    let mut text = String::new(alloc);
    write_program(&mut text, moment)?;
    let free = free_threads(&counters.readings(alloc)?, moment.threads);
    write_number(&mut text, "seats", moment.seats as u64)?;
    write_number(&mut text, "threads", moment.threads as u64)?;
    write_number(&mut text, "threads_free", free)?;
    if let Some(bytes) = moment.resident {
        write_number(&mut text, "resident", bytes)?;
    }
    let counted = counters.json(alloc, Duration::from_secs(moment.uptime))?;
    text.push_str(counted.as_str().strip_prefix('{').unwrap_or("}"))?;
    Ok(text)
}

// Writes the version, and that of the kit.
fn write_program(text: &mut String, moment: &Moment<'_>) -> Result<(), AllocError> {
    for part in [
        "{\"version\":\"",
        moment.version,
        "\",\"kit\":\"",
        moment.kit,
        "\",",
    ] {
        text.push_str(part)?;
    }
    Ok(())
}

// Writes a number with its name, and a comma after it.
fn write_number(text: &mut String, name: &str, number: u64) -> Result<(), AllocError> {
    write!(text, "\"{name}\":{number},")?;
    Ok(())
}
