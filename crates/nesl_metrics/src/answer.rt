//! Reads what a monitor asks for, and writes answers by HTTP.

use std::alloc::{AllocError, Global};
use std::fmt::Write;

/// What a monitor asks for.
#[derive(Clone, Copy, PartialEq, Eq, Debug)]
pub enum Asked {
    /// All numbers.
    Metrics,
    /// Whether the service is well.
    Health,
    /// Nothing that there is.
    Other,
}

/// How a service is.
#[derive(Clone, Copy, PartialEq, Eq, Debug)]
pub enum Condition {
    Well,
    /// An operator has closed it.
    Stopping,
    /// Each thread has a connection.
    Full,
}

impl Condition {
    /// The word for it.
    pub fn word(self) -> &'static str {
        match self {
            Condition::Well => "ok\n",
            Condition::Stopping => "stopping\n",
            Condition::Full => "full\n",
        }
    }
}

/// Returns what the head of a request asks for.
pub fn read_request(head: &[u8]) -> Asked {
    if head.starts_with(b"GET /metrics ".as_slice()) {
        Asked::Metrics
    } else if head.starts_with(b"GET /healthz ".as_slice()) {
        Asked::Health
    } else {
        Asked::Other
    }
}

/// Returns the answer to what nobody can be asked for.
pub fn write_unknown(alloc: Global) -> Result<String, AllocError> {
    write_answer(alloc, "404 Not Found", "not found\n")
}

/// Returns the answer with these metrics.
pub fn write_found(alloc: Global, metrics: &str) -> Result<String, AllocError> {
    write_answer(alloc, "200 OK", metrics)
}

/// Returns the answer of how a service is.
pub fn write_health(alloc: Global, health: Condition) -> Result<String, AllocError> {
    let status = match health {
        Condition::Well => "200 OK",
        Condition::Stopping | Condition::Full => "503 Service Unavailable",
    };
    write_answer(alloc, status, health.word())
}

fn write_answer(alloc: Global, status: &str, body: &str) -> Result<String, AllocError> {
    let mut text = String::new(alloc);
    for part in [
        "HTTP/1.1 ",
        status,
        "\r\nContent-Type: text/plain; version=0.0.4; charset=utf-8\r\nContent-Length: ",
    ] {
        text.push_str(part)?;
    }
    let length = body.len();
    write!(text, "{length}")?;
    text.push_str("\r\nConnection: close\r\n\r\n")?;
    text.push_str(body)?;
    Ok(text)
}
