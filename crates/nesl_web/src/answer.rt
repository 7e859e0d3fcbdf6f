//! The answers to requests: a file of the page, a refusal, or the switch to a WebSocket.

use crate::asked::{HINTS, Subprotocol};
use http1::WriteError;
use http1::head::{Header, write_response};
use nesl_web_files::File;
use std::alloc::Global;

/// Why a request is refused.
#[derive(Clone, Copy, PartialEq, Eq, Debug)]
pub enum Refusal {
    /// It is no valid request, or no valid request for a WebSocket.
    Unreadable,
    /// It is for another host, or comes from a page of another host.
    Forbidden,
    NotFound,
    /// Its method isn't supported.
    Method,
    /// Its head did not arrive in time.
    Slow,
    /// Its head has too many bytes or fields.
    Large,
}

impl Refusal {
    pub fn status(self) -> u16 {
        match self {
            Refusal::Unreadable => 400,
            Refusal::Forbidden => 403,
            Refusal::NotFound => 404,
            Refusal::Method => 405,
            Refusal::Slow => 408,
            Refusal::Large => 431,
        }
    }

    // Returns the reason phrase of the status.
    fn words(self) -> &'static str {
        match self {
            Refusal::Unreadable => "Bad Request",
            Refusal::Forbidden => "Forbidden",
            Refusal::NotFound => "Not Found",
            Refusal::Method => "Method Not Allowed",
            Refusal::Slow => "Request Timeout",
            Refusal::Large => "Request Header Fields Too Large",
        }
    }
}

/// Whether an answer has its text, or only its head, as for HEAD.
#[derive(Clone, Copy, PartialEq, Eq, Debug)]
pub enum Content {
    Sent,
    LeftOut,
}

/// The content security policy. The page loads its own files and connects to its own origin, and to nothing else. No
/// other page can embed it.
const POLICY: &[u8] = b"default-src 'none'; script-src 'self'; style-src 'self'; img-src 'self'; \
    connect-src 'self'; base-uri 'none'; form-action 'none'; frame-ancestors 'none'";

// The fields of each answer: the policy, and that browsers neither guess types, nor keep answers, nor send the page's
// address to others.
const POLICY_FIELD: Header<'static> = Header {
    name: b"Content-Security-Policy",
    value: POLICY,
};

const TYPE_FIELD: Header<'static> = Header {
    name: b"X-Content-Type-Options",
    value: b"nosniff",
};

const CACHE_FIELD: Header<'static> = Header {
    name: b"Cache-Control",
    value: b"no-store",
};

const REFERRER_FIELD: Header<'static> = Header {
    name: b"Referrer-Policy",
    value: b"no-referrer",
};

const ALLOW_FIELD: Header<'static> = Header {
    name: b"Allow",
    value: b"GET, HEAD, OPTIONS",
};

const CLOSE_FIELD: Header<'static> = Header {
    name: b"Connection",
    value: b"close",
};

// The subprotocol with hints.
const PROTOCOL_FIELD: Header<'static> = Header {
    name: b"Sec-WebSocket-Protocol",
    value: HINTS,
};

// The fields of an answer with a text of this kind, except for its length.
fn text_fields(kind: &'static str) -> [Header<'static>; 7] {
    [
        POLICY_FIELD,
        TYPE_FIELD,
        CACHE_FIELD,
        REFERRER_FIELD,
        Header {
            name: b"Content-Type",
            value: kind.as_bytes(),
        },
        ALLOW_FIELD,
        CLOSE_FIELD,
    ]
}

// The fields of an answer that switches to a WebSocket, except for the key and the subprotocol.
fn upgrade_fields() -> [Header<'static>; 6] {
    [
        POLICY_FIELD,
        TYPE_FIELD,
        CACHE_FIELD,
        REFERRER_FIELD,
        Header {
            name: b"Connection",
            value: b"Upgrade",
        },
        Header {
            name: b"Upgrade",
            value: b"websocket",
        },
    ]
}

// Writes the head of an answer with a text of this length. The connection ends after it.
fn text_head(
    alloc: Global,
    status: u16,
    words: &str,
    kind: &'static str,
    length: usize,
) -> Result<Vec<u8>, WriteError> {
    let length = format!(in alloc; "{length}")?;
    let length_field = Header {
        name: b"Content-Length",
        value: length.as_bytes(),
    };
    write_head(alloc, status, words, &text_fields(kind), &[length_field])
}

// Writes the head of an answer.
fn write_head(
    alloc: Global,
    status: u16,
    words: &str,
    fields: &[Header<'_>],
    more: &[Header<'_>],
) -> Result<Vec<u8>, WriteError> {
    let mut bytes = Vec::new(alloc);
    write_response(&mut bytes, 1, status, words.as_bytes(), fields, more)?;
    Ok(bytes)
}

/// Writes the head of the answer with this file.
pub fn file_head(alloc: Global, file: File<'_>) -> Result<Vec<u8>, WriteError> {
    text_head(alloc, 200, "OK", file.kind, file.text.len())
}

/// Writes the answer that lists the supported methods. It has no text.
pub fn methods_answer(alloc: Global) -> Result<Vec<u8>, WriteError> {
    let fields = [
        POLICY_FIELD,
        TYPE_FIELD,
        CACHE_FIELD,
        REFERRER_FIELD,
        ALLOW_FIELD,
    ];
    write_head(alloc, 204, "No Content", &fields, &[CLOSE_FIELD])
}

/// Writes the answer that refuses a request, with or without its text.
pub fn refusal_answer(
    alloc: Global,
    refusal: Refusal,
    content: Content,
) -> Result<Vec<u8>, WriteError> {
    let words = refusal.words();
    let text = format!(in alloc; "{words}\n")?;
    let mut bytes = text_head(
        alloc,
        refusal.status(),
        words,
        "text/plain; charset=utf-8",
        text.len(),
    )?;
    if content == Content::Sent {
        bytes.extend_from_slice(text.as_bytes())?;
    }
    Ok(bytes)
}

/// Writes the answer that switches to a WebSocket. `key` proves that the request was understood.
pub fn upgrade_answer(
    alloc: Global,
    key: &[u8; 28],
    subprotocol: Subprotocol,
) -> Result<Vec<u8>, WriteError> {
    let accept_field = Header {
        name: b"Sec-WebSocket-Accept",
        value: key.as_slice(),
    };
    let more = [accept_field, PROTOCOL_FIELD];
    let count = match subprotocol {
        Subprotocol::Hints => 2,
        Subprotocol::Plain => 1,
    };
    write_head(
        alloc,
        101,
        "Switching Protocols",
        &upgrade_fields(),
        &more[..count],
    )
}
