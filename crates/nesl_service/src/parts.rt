//! Answers and hints as messages of their own.

use nesl_service_records::answers::ObservedWriter;
use nesl_service_records::journal::Journal;
use std::io;
use std::io::Write;
use std::time::Clock;

// What is written next.
#[derive(Clone, Copy, PartialEq, Eq, Debug)]
enum Part {
    // An answer, or the rest of one.
    Answer,
    // A hint, if anything comes before the flush.
    HintOrFlush,
    // The rest of a hint.
    Hint,
}

/// A writer of answers, each with the hint that may follow it, up to a flush. It flushes the answer before its hint, so
/// that each is a message. Only answers are observed.
#[derive(Drop)]
pub(crate) struct PartWriter<'x, W, R, J> {
    answers: ObservedWriter<'x, W, R, J>,
    part: Part,
}

impl<'x, W: Write, R: Clock, J: Journal> PartWriter<'x, W, R, J> {
    /// A writer that has written nothing yet.
    pub(crate) fn new(answers: ObservedWriter<'x, W, R, J>) -> PartWriter<'x, W, R, J> {
        PartWriter {
            answers,
            part: Part::Answer,
        }
    }

    /// Returns the writer of answers.
    pub(crate) fn into_inner(self) -> ObservedWriter<'x, W, R, J> {
        self.answers
    }
}

impl<W: Write, R: Clock, J: Journal> Write for PartWriter<'_, W, R, J> {
    fn write(&mut self, buf: &[u8]) -> io::Result<usize> {
        if self.part == Part::HintOrFlush {
            self.answers.flush()?;
            self.part = Part::Hint;
        }
        if self.part == Part::Hint {
            return self.answers.writer.write(buf);
        }
        let taken = self.answers.write(buf)?;
        // An answer ends in the only line end that it has.
        if taken == buf.len() && buf.last() == Some(&b'\n') {
            self.part = Part::HintOrFlush;
        }
        Ok(taken)
    }

    fn flush(&mut self) -> io::Result<()> {
        self.part = Part::Answer;
        self.answers.flush()
    }
}
