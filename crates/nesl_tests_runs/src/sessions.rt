//! What sessions answer: a fault's number follows an answer, and whether it was not recorded. Of a long answer
//! only the beginning and the end are written, and how many bytes it has and what they add up to. The directives are
//!
//! - `@session NAME=NUMBER ..`: a fresh session, with the limits of the program but for those named.
//! - `@heap BYTES`: what comes after is evaluated in a heap of this many bytes, up to `@heap off`.
//! - `@repeat COUNT TEXT COUNT TEXT ..`: says the line that has each text this many times, where `_` means a blank.
//! - `@bytes NUMBER ..`: says the line of these bytes.
//! - `@state`: writes what the session's readers tell.
//! - `@again`: a line that is answered for want of memory is said once more, and only the second answer is written.
//! - `@refused`: writes how many answers were for want of memory.
//! - `@requests COUNT`: asks for memory this many times, and does nothing with it.

use crate::requests::request;
use crate::rows::{Asked, Rows};
use crate::writing::{put, put_line, put_unread, put_wrong};
use linked_list_allocator::LocalHeap;
use nesl_session::Fault;
use nesl_session::answer::Answer;
use nesl_session::limits::Limits;
use nesl_session::session::Session;
use std::alloc::{AllocError, Global};

/// The most bytes of an answer that is written whole.
const WHOLE: usize = 400;

/// The bytes of the beginning and of the end of a longer one that are written.
const END: usize = 100;

/// The limits of the program.
pub const LIMITS: Limits = Limits {
    line_work: 1_000_000,
    session_work: 100_000_000,
    elements: 100_000,
    transcript_lines: 10_000,
    transcript_bytes: 1_048_576,
};

/// A session, and how lines are said to it.
#[derive(Drop)]
struct Sessions {
    session: Session,
    heap: Option<LocalHeap>,
    again: bool,
    refused: u64,
}

/// Answers the rows of a part, and writes those that are missed and how many hold.
pub fn try_sessions(alloc: Global, text: &str, out: &mut Vec<u8>) -> Result<(), AllocError> {
    let mut sessions = Sessions {
        session: Session::new(alloc, LIMITS)?,
        heap: None,
        again: false,
        refused: 0,
    };
    sessions.try_rows(alloc, text, out)
}

impl Sessions {
    fn try_rows(&mut self, alloc: Global, text: &str, out: &mut Vec<u8>) -> Result<(), AllocError> {
        let mut rows = Rows::new(alloc);
        for line in text.lines() {
            if let Some(asked) = rows.read(line, out)? {
                self.follow(alloc, asked, rows.answer())?;
            }
        }
        rows.end(alloc, "sessions", out)
    }

    // Writes the answer to a row, in whole lines.
    fn follow(
        &mut self,
        alloc: Global,
        asked: Asked<'_>,
        out: &mut Vec<u8>,
    ) -> Result<(), AllocError> {
        match asked {
            Asked::Text(text) => self.say(alloc, text.as_bytes(), out),
            Asked::Directive(word, rest) => self.direct(alloc, word, rest, out),
        }
    }

    fn direct(
        &mut self,
        alloc: Global,
        word: &str,
        rest: &str,
        out: &mut Vec<u8>,
    ) -> Result<(), AllocError> {
        if word == "@session" {
            let is_read = self.begin(alloc, rest)?;
            put_unread(is_read, out)
        } else if word == "@heap" {
            let is_read = self.evaluate_in(alloc, rest)?;
            put_unread(is_read, out)
        } else if word == "@repeat" {
            self.say_made(alloc, repeated(alloc, rest)?, out)
        } else if word == "@bytes" {
            self.say_made(alloc, bytes_of(alloc, rest)?, out)
        } else if word == "@state" {
            self.put_state(alloc, out)
        } else if word == "@again" {
            self.again = true;
            Ok(())
        } else if word == "@refused" {
            self.put_refused(alloc, out)
        } else if word == "@requests" {
            request(alloc, rest, out)
        } else {
            put_wrong(out)
        }
    }

    // Begins a session with the limits that are named, if they can be read.
    fn begin(&mut self, alloc: Global, words: &str) -> Result<bool, AllocError> {
        let Some(limits) = limits_of(words) else {
            return Ok(false);
        };
        self.session = Session::new(alloc, limits)?;
        self.heap = None;
        Ok(true)
    }

    // Has what comes after evaluated in a heap, or outside any, if that can be read.
    fn evaluate_in(&mut self, alloc: Global, word: &str) -> Result<bool, AllocError> {
        self.heap = if word == "off" {
            None
        } else if let Ok(bytes) = word.parse::<usize>() {
            Some(LocalHeap::new(alloc, bytes)?)
        } else {
            return Ok(false);
        };
        Ok(true)
    }

    fn answer(&mut self, alloc: Global, text: &[u8]) -> Answer {
        let answer = match &self.heap {
            Some(heap) => self.session.line_in(alloc, text, heap),
            None => self.session.line(alloc, text),
        };
        if answer.fault() == Some(Fault::Memory) {
            self.refused = self.refused.saturating_add(1);
        }
        answer
    }

    fn say(&mut self, alloc: Global, text: &[u8], out: &mut Vec<u8>) -> Result<(), AllocError> {
        let mut answer = self.answer(alloc, text);
        if self.again && answer.fault() == Some(Fault::Memory) {
            answer = self.answer(alloc, text);
        }
        put_answer(alloc, &answer, out)
    }

    // Says a line that was made, if it could be.
    fn say_made(
        &mut self,
        alloc: Global,
        text: Option<Vec<u8>>,
        out: &mut Vec<u8>,
    ) -> Result<(), AllocError> {
        match text {
            Some(text) => self.say(alloc, text.as_slice(), out),
            None => put_wrong(out),
        }
    }

    fn put_refused(&self, alloc: Global, out: &mut Vec<u8>) -> Result<(), AllocError> {
        let refused = self.refused;
        put(
            out,
            format!(in alloc; "{refused} answered for want of memory\n"),
        )
    }

    // Writes what the readers tell.
    fn put_state(&self, alloc: Global, out: &mut Vec<u8>) -> Result<(), AllocError> {
        let session = &self.session;
        let left = session.remaining();
        put(
            out,
            format!(in alloc;
                "base {}, cleared {}, lines {}, pending {}; left: work {}, elements {}, lines {}, bytes {}; bound:",
                session.base(),
                session.cleared(),
                session.lines().len(),
                session.pending().len(),
                left.work,
                left.elements,
                left.lines,
                left.bytes
            ),
        )?;
        for name in session.bindings() {
            out.extend_from_slice(b" ")?;
            out.extend_from_slice(name)?;
        }
        out.extend_from_slice(b"\n")
    }
}

// The program's limits, but for those that are named.
fn limits_of(words: &str) -> Option<Limits> {
    let mut limits = LIMITS;
    for word in words.split_whitespace() {
        limits = limited(limits, word)?;
    }
    Some(limits)
}

// The limits, but for the one that is named.
fn limited(limits: Limits, word: &str) -> Option<Limits> {
    let (name, number) = word.split_once('=')?;
    with_limit(limits, name, number.parse::<u64>().ok()?)
}

fn with_limit(mut limits: Limits, name: &str, number: u64) -> Option<Limits> {
    if name == "line_work" {
        limits.line_work = number;
    } else if name == "session_work" {
        limits.session_work = number;
    } else if name == "elements" {
        limits.elements = number;
    } else if name == "transcript_lines" {
        limits.transcript_lines = number;
    } else if name == "transcript_bytes" {
        limits.transcript_bytes = number;
    } else {
        return None;
    }
    Some(limits)
}

// The texts, each this many times as the count before it says.
fn repeated(alloc: Global, words: &str) -> Result<Option<Vec<u8>>, AllocError> {
    let mut line = Vec::new(alloc);
    let mut count = None;
    for word in words.split_whitespace() {
        match count {
            None => match word.parse::<u32>() {
                Ok(number) => count = Some(number),
                Err(_) => return Ok(None),
            },
            Some(number) => {
                push_times(&mut line, word.as_bytes(), number)?;
                count = None;
            }
        }
    }
    Ok(Some(line))
}

// A text this many times, with blanks in place of `_`.
fn push_times(line: &mut Vec<u8>, text: &[u8], count: u32) -> Result<(), AllocError> {
    for _ in 0..count {
        for byte in text {
            line.push(if *byte == b'_' { b' ' } else { *byte })?;
        }
    }
    Ok(())
}

fn bytes_of(alloc: Global, words: &str) -> Result<Option<Vec<u8>>, AllocError> {
    let mut line = Vec::new(alloc);
    for word in words.split_whitespace() {
        let Ok(byte) = word.parse::<u8>() else {
            return Ok(None);
        };
        line.push(byte)?;
    }
    Ok(Some(line))
}

fn sum_of(bytes: &[u8]) -> u64 {
    let mut sum: u64 = 0;
    for byte in bytes {
        sum = sum.saturating_add(u64::from(*byte));
    }
    sum
}

// Writes a text; of a long one the beginning and the end, and what makes another one unlikely to look the same.
fn put_cut(alloc: Global, bytes: &[u8], out: &mut Vec<u8>) -> Result<(), AllocError> {
    let length = bytes.len();
    if length <= WHOLE {
        return out.extend_from_slice(bytes);
    }
    let sum = sum_of(bytes);
    let (beginning, _) = bytes.split_at(END);
    let (_, end) = bytes.split_at(length - END);
    out.extend_from_slice(beginning)?;
    out.extend_from_slice(b" .. ")?;
    out.extend_from_slice(end)?;
    put(
        out,
        format!(in alloc; " (its {length} bytes add up to {sum})"),
    )
}

// Writes an answer, with the number of its fault, and whether it was not recorded.
fn put_answer(alloc: Global, answer: &Answer, out: &mut Vec<u8>) -> Result<(), AllocError> {
    let bytes = answer.bytes();
    put_cut(alloc, bytes.strip_suffix(b"\n").unwrap_or(bytes), out)?;
    let unrecorded = if answer.recorded() {
        ""
    } else {
        ", not recorded"
    };
    match answer.fault() {
        Some(fault) => {
            let number = fault.number();
            put(out, format!(in alloc; " [{number}{unrecorded}]\n"))
        }
        None => put_line(out, unrecorded.as_bytes()),
    }
}
