//! Writes numbers as metrics.

use nesl_service_records::answers::FAULTS;
use nesl_service_records::counters::Readings;
use nesl_service_records::journal::Ending;
use std::alloc::{AllocError, Global};
use std::fmt::Write;

/// What a monitor reads beside the counters.
#[derive(Clone, Copy, PartialEq, Eq, Debug)]
pub struct Moment<'a> {
    /// The program's version, and that of the kit with which it is proved.
    pub version: &'a str,
    pub kit: &'a str,
    /// The seconds since the start.
    pub uptime: u64,
    /// The number of seats.
    pub seats: usize,
    /// The number of threads that serve.
    pub threads: usize,
    /// The bytes of memory that the process has, if the system says so.
    pub resident: Option<u64>,
}

/// The thresholds for slow lines in seconds, in the order of `Readings::slow`.
const BUCKETS: [&str; 3] = ["0.001", "0.01", "0.1"];

/// Returns all numbers as metrics.
pub fn write_metrics(
    alloc: Global,
    readings: &Readings,
    moment: &Moment<'_>,
) -> Result<String, AllocError> {
    let mut text = String::new(alloc);
    write_moment(&mut text, moment)?;
    write_connections(&mut text, readings, moment)?;
    write_lines(&mut text, readings)?;
    write_histogram(&mut text, readings)?;
    write_events(&mut text, readings)?;
    write_kept(&mut text, readings)?;
    Ok(text)
}

// Writes what a metric is, and of which type.
fn head(text: &mut String, name: &str, kind: &str, help: &str) -> Result<(), AllocError> {
    for part in [
        "# HELP ",
        name,
        " ",
        help,
        "\n# TYPE ",
        name,
        " ",
        kind,
        "\n",
    ] {
        text.push_str(part)?;
    }
    Ok(())
}

// Writes a metric without a label.
fn one(
    text: &mut String,
    name: &str,
    kind: &str,
    help: &str,
    number: u64,
) -> Result<(), AllocError> {
    head(text, name, kind, help)?;
    text.push_str(name)?;
    end(text, number)
}

// Writes a blank, a number and the end of the line.
fn end(text: &mut String, number: u64) -> Result<(), AllocError> {
    write!(text, " {number}\n")?;
    Ok(())
}

// Writes a row with a label.
fn row(
    text: &mut String,
    name: &str,
    label: &str,
    value: &str,
    number: u64,
) -> Result<(), AllocError> {
    for part in [name, "{", label, "=\"", value, "\"}"] {
        text.push_str(part)?;
    }
    end(text, number)
}

// Writes microseconds as seconds, a blank before them and the end of the line after them.
fn end_seconds(text: &mut String, micros: u64) -> Result<(), AllocError> {
    let (seconds, rest) = (micros / 1_000_000, micros % 1_000_000);
    write!(text, " {seconds}.{rest:06}\n")?;
    Ok(())
}

fn write_moment(text: &mut String, moment: &Moment<'_>) -> Result<(), AllocError> {
    write_info(text, moment)?;
    one(
        text,
        "pazkindu_uptime_seconds",
        "gauge",
        "Seconds since the start",
        moment.uptime,
    )?;
    match moment.resident {
        Some(bytes) => one(
            text,
            "pazkindu_resident_bytes",
            "gauge",
            "Bytes of memory that the process has",
            bytes,
        ),
        None => Ok(()),
    }
}

fn write_info(text: &mut String, moment: &Moment<'_>) -> Result<(), AllocError> {
    head(
        text,
        "pazkindu_info",
        "gauge",
        "The program's version, and that of the kit with which it is proved",
    )?;
    for part in [
        "pazkindu_info{version=\"",
        moment.version,
        "\",kit=\"",
        moment.kit,
        "\"} 1\n",
    ] {
        text.push_str(part)?;
    }
    Ok(())
}

fn write_connections(
    text: &mut String,
    readings: &Readings,
    moment: &Moment<'_>,
) -> Result<(), AllocError> {
    one(
        text,
        "pazkindu_connections_total",
        "counter",
        "Connections that have begun",
        readings.begun,
    )?;
    one(
        text,
        "pazkindu_connections_open",
        "gauge",
        "Connections that have not ended",
        open_connections(readings),
    )?;
    one(
        text,
        "pazkindu_seats",
        "gauge",
        "Seats of the service",
        moment.seats as u64,
    )?;
    one(
        text,
        "pazkindu_threads",
        "gauge",
        "Threads that serve",
        moment.threads as u64,
    )?;
    one(
        text,
        "pazkindu_threads_free",
        "gauge",
        "Threads that serve and have no connection",
        free_threads(readings, moment.threads),
    )?;
    write_turned_away(text, readings)?;
    write_ended(text, readings)
}

fn write_turned_away(text: &mut String, readings: &Readings) -> Result<(), AllocError> {
    let name = "pazkindu_turned_away_total";
    head(text, name, "counter", "Connections without a seat, by why")?;
    row(text, name, "reason", "unknown", readings.unknown)?;
    row(text, name, "reason", "busy", readings.busy)
}

fn write_ended(text: &mut String, readings: &Readings) -> Result<(), AllocError> {
    let name = "pazkindu_connections_ended_total";
    head(text, name, "counter", "Connections that have ended, by why")?;
    for (ending, number) in Ending::ALL.iter().zip(readings.ended.as_slice()) {
        row(text, name, "reason", ending.words(), *number)?;
    }
    Ok(())
}

fn write_lines(text: &mut String, readings: &Readings) -> Result<(), AllocError> {
    one(
        text,
        "pazkindu_lines_total",
        "counter",
        "Lines that were answered",
        readings.lines,
    )?;
    one(
        text,
        "pazkindu_work_total",
        "counter",
        "Work that the answers state",
        readings.work,
    )?;
    let name = "pazkindu_faults_total";
    head(text, name, "counter", "Answers that are faults, by name")?;
    for (fault, number) in FAULTS.iter().zip(readings.faults.as_slice()) {
        row(text, name, "fault", fault, *number)?;
    }
    Ok(())
}

// Writes how many lines took how long. The counters have those that took a time or longer.
fn write_histogram(text: &mut String, readings: &Readings) -> Result<(), AllocError> {
    let name = "pazkindu_line_seconds_bucket";
    head(
        text,
        "pazkindu_line_seconds",
        "histogram",
        "Seconds from a line's last byte to its answer's first",
    )?;
    for (bound, slow) in BUCKETS.iter().zip(readings.slow.as_slice()) {
        row(
            text,
            name,
            "le",
            bound,
            readings.lines.saturating_sub(*slow),
        )?;
    }
    row(text, name, "le", "+Inf", readings.lines)?;
    text.push_str("pazkindu_line_seconds_sum")?;
    end_seconds(text, readings.micros)?;
    text.push_str("pazkindu_line_seconds_count")?;
    end(text, readings.lines)
}

fn write_events(text: &mut String, readings: &Readings) -> Result<(), AllocError> {
    let name = "pazkindu_helpers_total";
    head(text, name, "counter", "Requests for helpers, by answer")?;
    row(text, name, "answer", "granted", readings.granted)?;
    row(text, name, "answer", "refused", readings.refused)?;
    let name = "pazkindu_log_lines_total";
    head(text, name, "counter", "Lines of the log")?;
    row(text, name, "state", "written", readings.written)?;
    row(text, name, "state", "lost", readings.lost)
}

fn write_kept(text: &mut String, readings: &Readings) -> Result<(), AllocError> {
    one(
        text,
        "pazkindu_kept_lines_total",
        "counter",
        "Lines that changed a kept file",
        readings.kept_lines,
    )?;
    one(
        text,
        "pazkindu_kept_bytes_total",
        "counter",
        "Bytes by which kept files grew",
        readings.kept_bytes,
    )?;
    let name = "pazkindu_kept_seconds_total";
    head(
        text,
        name,
        "counter",
        "Seconds until kept lines were on the disk",
    )?;
    text.push_str(name)?;
    end_seconds(text, readings.kept_micros)?;
    one(
        text,
        "pazkindu_not_taken_up_total",
        "counter",
        "Kept sessions that could not be taken up",
        readings.not_taken_up,
    )
}

// The number of connections that have not ended.
fn open_connections(readings: &Readings) -> u64 {
    let mut open = readings.begun;
    for ended in &readings.ended {
        open = open.saturating_sub(*ended);
    }
    open
}

/// The number of these threads that have no connection.
pub fn free_threads(readings: &Readings, threads: usize) -> u64 {
    (threads as u64).saturating_sub(open_connections(readings))
}
