//! Reads what a connection is answered, as it is written.
ghost use Rattle.std.specs.Prelude.{◌≡◌};

use crate::journal::{Answered, Caller, Journal, Seat};
use crate::watch::Watch;
use memchr::memchr;
use std::io;
use std::io::Write;
use std::time::{Clock, Duration};

/// The words of the faults, in the order of their numbers. The replies and the counters name faults by them.
pub const FAULTS: [&str; 26] = [
    "long",
    "lexical",
    "syntax",
    "nested",
    "unknown",
    "type",
    "ambiguous",
    "retype",
    "taken",
    "overflow",
    "division",
    "range",
    "code",
    "length",
    "empty",
    "permutation",
    "count",
    "stride",
    "deep",
    "large",
    "work",
    "elements",
    "transcript",
    "memory",
    "user",
    "busy",
];

/// The most bytes kept of the beginning of an answer: `user ` and a name, or `fault ` and its word, fit.
const FRONT_BYTES: usize = 24;

/// The bytes at the end of a write that are searched for the work. The longest ` (work W, depth D)` is shorter.
const END_BYTES: usize = 64;

// The first bytes of an answer, at most `FRONT_BYTES`.
#[derive(Clone, Copy)]
struct Front {
    bytes: [u8; FRONT_BYTES],
    length: usize,
}

impl Front {
    fn new() -> Front {
        Front {
            bytes: [0; FRONT_BYTES],
            length: 0,
        }
    }

    // Adds the bytes that fit.
    fn add(&mut self, bytes: &[u8]) {
        for byte in bytes {
            let Some(place) = self.bytes.get_mut(self.length) else {
                return;
            };
            *place = *byte;
            self.length = self.length.saturating_add(1);
        }
    }

    fn bytes(&self) -> &[u8] {
        self.bytes.get(..self.length).unwrap_or(&[])
    }
}

/// How far the work at the end of an answer was read.
#[derive(Clone, Copy, PartialEq, Eq, Debug)]
enum Work {
    /// No part of ` (work ` was read.
    Nothing,
    /// The first bytes of `(work ` were read: this number of them.
    Word(usize),
    /// `(work ` and some digits were read; this is the number so far.
    Number(u64),
    /// The work was read whole.
    Whole(u64),
}

impl Work {
    fn after(self, byte: u8) -> Work {
        let word = b"(work ";
        match self {
            _ if byte == b'(' => Work::Word(1),
            Work::Word(length) => match word.get(length) {
                Some(wanted) if *wanted != byte => Work::Nothing,
                Some(_) if length.saturating_add(1) < word.len() => Work::Word(
                    length.saturating_add(1),
                ),
                _ => Work::Number(0),
            },
            Work::Number(number) if byte.is_ascii_digit() => {
                let digit = u64::from(byte.saturating_sub(b'0'));
                Work::Number(number.saturating_mul(10).saturating_add(digit))
            }
            Work::Number(number) if byte == b',' || byte == b')' => Work::Whole(number),
            Work::Whole(work) => Work::Whole(work),
            Work::Nothing | Work::Number(_) => Work::Nothing,
        }
    }
}

/// What was read of an answer so far.
#[derive(Clone, Copy)]
struct Reading {
    front: Front,
    work: Work,
}

impl Reading {
    fn nothing() -> Reading {
        Reading {
            front: Front::new(),
            work: Work::Nothing,
        }
    }

    // Reads more bytes. In a long piece only the last `END_BYTES` bytes are searched for the work.
    fn add(&mut self, bytes: &[u8]) {
        self.front.add(bytes);
        let skipped = bytes.len().saturating_sub(END_BYTES);
        if skipped > 0 {
            self.work = Work::Nothing;
        }
        for byte in bytes.get(skipped..).unwrap_or(&[]) {
            self.work = self.work.after(*byte);
        }
    }

    // The seat that the answer to a first line gives.
    fn seat(&self) -> Seat<'_> {
        match self.front.bytes() {
            [b'u', b's', b'e', b'r', b' ', name @ ..] => Seat::User(name),
            b"fault busy" => Seat::Busy,
            _ => Seat::Unknown,
        }
    }

    fn fault(&self) -> Option<usize> {
        let word = self.front.bytes().strip_prefix(b"fault ".as_slice())?;
        let end = word
            .iter()
            .position(|byte| *byte == b' ')
            .unwrap_or(word.len());
        let word = word.get(..end).unwrap_or(word);
        FAULTS.iter().position(|fault| fault.as_bytes() == word)
    }

    fn work(&self) -> u64 {
        match self.work {
            Work::Whole(work) => work,
            _ => 0,
        }
    }
}

/// Reports answers to a journal: the first one, which seats the connection, and all of them if the journal counts.
#[derive(Drop)]
pub struct AnswerObserver<'x, R, J> {
    watch: &'x Watch<'x, R>,
    journal: &'x J,
    caller: Caller,
    is_first: bool,
    is_counting: bool,
    reading: Reading,
    took: Option<Duration>,
}

impl<'x, R: Clock, J: Journal> AnswerObserver<'x, R, J> {
    /// An observer that has not seen an answer. The watch runs since the last line came.
    pub fn new(
        watch: &'x Watch<'x, R>,
        journal: &'x J,
        caller: Caller,
    ) -> AnswerObserver<'x, R, J> {
        AnswerObserver {
            watch,
            journal,
            caller,
            is_first: true,
            is_counting: journal.is_counting(),
            reading: Reading::nothing(),
            took: None,
        }
    }

    // Called before a write. If an answer begins with it, notes the time since its line came.
    fn begin(&mut self) {
        if self.is_counting && self.reading.front.length == 0 {
            self.took = self.watch.passed();
        }
    }

    // Reads the bytes that were written.
    fn observe(&mut self, bytes: &[u8]) {
        if !self.is_first && !self.is_counting {
            return;
        }
        let mut rest = bytes;
        for _ in 0..bytes.len() {
            let Some(end) = memchr(b'\n', rest) else {
                break;
            };
            self.reading.add(rest.get(..end).unwrap_or(rest));
            self.report();
            rest = rest.get(end.saturating_add(1)..).unwrap_or(&[]);
        }
        self.reading.add(rest);
    }

    // Reports an answer that was written whole.
    fn report(&mut self) {
        if self.is_first {
            self.journal.seated(self.caller, self.reading.seat());
            self.is_first = false;
        }
        if self.is_counting {
            self.journal.answered(&Answered {
                caller: self.caller,
                fault: self.reading.fault(),
                work: self.reading.work(),
                took: self.took,
            });
            self.watch.begin();
        }
        self.reading = Reading::nothing();
    }
}

/// A writer of answers that reports them to a journal after their bytes are written.
#[derive(Drop)]
pub struct ObservedWriter<'x, W, R, J> {
    pub writer: W,
    pub observer: AnswerObserver<'x, R, J>,
}

impl<W: Write, R: Clock, J: Journal> Write for ObservedWriter<'_, W, R, J> {
    fn write(&mut self, buf: &[u8]) -> io::Result<usize> {
        self.observer.begin();
        let taken = self.writer.write(buf)?;
        self.observer.observe(&buf[..taken]);
        Ok(taken)
    }

    fn flush(&mut self) -> io::Result<()> {
        self.writer.flush()
    }
}
