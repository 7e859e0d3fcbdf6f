//! An exercise, read from its Markdown.
ghost use Rattle.std.specs.Prelude.{◌<◌, IfSome, length};

use crate::bytes::copy_of;
use crate::fault::{ExerciseFault, Expected};
pub use crate::limits::OwnLimits;
use crate::limits::parse_limit;
use crate::parse_test::{TestLine, parse_test};
use crate::test::{Audience, Test};
use memchr::memchr;
use std::alloc::{AllocError, Global};

/// An exercise.
#[derive(Drop)]
pub struct Exercise {
    /// The forms that a session gets before a submission, as they are written.
    pub given: Vec<u8>,
    /// The forms of the exercise's own solution.
    pub solution: Vec<u8>,
    pub tests: Vec<Test>,
    pub limits: OwnLimits,
}

// What the lines of a block are.
#[derive(Clone, Copy)]
enum Block {
    Given,
    Tests(Audience),
    Limits,
    Solution,
    /// Nothing that is read.
    Other,
}

// A block that is open, and the number of backquotes with which it begins.
#[derive(Clone, Copy)]
struct Fence {
    block: Block,
    ticks: usize,
}

// How far an exercise is read.
#[derive(Drop)]
struct Reader {
    exercise: Exercise,
    fence: Option<Fence>,
    /// The backquotes of the block `exercise` in which the other blocks are, if they are in one.
    around: Option<usize>,
    /// The points of the tests that come next.
    points: u64,
    /// The number of the line.
    line: u64,
}

/// Reads an exercise.
pub fn parse_exercise(alloc: Global, text: &[u8]) -> Result<Exercise, ExerciseFault> {
    let mut reader = Reader::new(alloc);
    let mut rest = text;
    'lines: while let Some((line, after)) = cut_line(rest) {
        reader.read(alloc, line)?;
        rest = after;
    }
    reader.read(alloc, rest)?;
    reader.finish()
}

// Splits a text after its first LF.
fn cut_line(text: &[u8]) -> Option<(&[u8], &[u8])>
    ensures { IfSome result (λ parts. length parts.1.now < length text.now) }
{
    match first_feed(text) {
        Some(place) => Some((&text[..place], &text[place + 1..])),
        None => None,
    }
}

// Finds the first LF.
fn first_feed(bytes: &[u8]) -> Option<usize>
    ensures { IfSome result (λ place. place < length bytes.now) }
{
    memchr(b'\n', bytes)
}

// The number of backquotes at the front of a line.
fn ticks_of(line: &[u8]) -> usize {
    match line.iter().position(|byte| *byte != b'`') {
        Some(place) => place,
        None => line.len(),
    }
}

fn block_of(info: &[u8]) -> Block {
    if info == b"given".as_slice() {
        Block::Given
    } else if info == b"tests".as_slice() {
        Block::Tests(Audience::Shown)
    } else if info == b"hidden".as_slice() {
        Block::Tests(Audience::Hidden)
    } else if info == b"limits".as_slice() {
        Block::Limits
    } else if info == b"solution".as_slice() {
        Block::Solution
    } else {
        Block::Other
    }
}

impl Reader {
    fn new(alloc: Global) -> Reader {
        Reader {
            exercise: Exercise {
                given: Vec::new(alloc),
                solution: Vec::new(alloc),
                tests: Vec::new(alloc),
                limits: OwnLimits {
                    line_work: None,
                    session_work: None,
                    elements: None,
                },
            },
            fence: None,
            around: None,
            points: 1,
            line: 0,
        }
    }

    // Reads one line, without its LF.
    fn read(&mut self, alloc: Global, line: &[u8]) -> Result<(), ExerciseFault> {
        self.line = self.line.saturating_add(1);
        let ticks = ticks_of(line);
        let info = line.get(ticks..).unwrap_or(&[]).trim_ascii();
        match self.fence {
            None => {
                if ticks >= 3 {
                    self.read_fence(ticks, info);
                }
                Ok(())
            }
            Some(fence) => {
                if ticks >= fence.ticks && info.is_empty() {
                    self.fence = None;
                    return Ok(());
                }
                self.read_inside(alloc, fence.block, line)
            }
        }
    }

    // Reads a line of backquotes outside the blocks. A longer text, as a lesson, may have a whole exercise in a block.
    fn read_fence(&mut self, ticks: usize, info: &[u8]) {
        match self.around {
            Some(around) if ticks >= around && info.is_empty() => self.around = None,
            None if info == b"exercise".as_slice() => self.around = Some(ticks),
            _ => {
                let block = block_of(info);
                self.fence = Some(Fence { block, ticks });
            }
        }
    }

    // Reads a line of a block.
    fn read_inside(
        &mut self,
        alloc: Global,
        block: Block,
        line: &[u8],
    ) -> Result<(), ExerciseFault> {
        match block {
            Block::Given => put_line(&mut self.exercise.given, line)?,
            Block::Solution => put_line(&mut self.exercise.solution, line)?,
            Block::Tests(audience) => return self.read_test(alloc, audience, line),
            Block::Limits => {
                if let Err(fault) = parse_limit(&mut self.exercise.limits, line) {
                    return Err(fault.at(self.line));
                }
            }
            Block::Other => {}
        }
        Ok(())
    }

    fn read_test(
        &mut self,
        alloc: Global,
        audience: Audience,
        line: &[u8],
    ) -> Result<(), ExerciseFault> {
        match parse_test(alloc, line) {
            Err(fault) => Err(fault.at(self.line)),
            Ok(TestLine::Nothing) => Ok(()),
            Ok(TestLine::Points(points)) => {
                self.points = points;
                Ok(())
            }
            Ok(TestLine::Check(check)) => {
                let text = copy_of(alloc, line.trim_ascii())?;
                self.exercise.tests.push(Test {
                    line: self.line,
                    audience,
                    points: self.points,
                    text,
                    check,
                })?;
                Ok(())
            }
        }
    }

    fn finish(self) -> Result<Exercise, ExerciseFault> {
        let Reader {
            exercise,
            fence,
            around,
            line,
            ..
        } = self;
        if fence.is_some() || around.is_some() {
            return Err(ExerciseFault::Line {
                line,
                expected: Expected::BlockEnd,
            });
        }
        if exercise.tests.is_empty() {
            return Err(ExerciseFault::NoTest);
        }
        Ok(exercise)
    }
}

fn put_line(text: &mut Vec<u8>, line: &[u8]) -> Result<(), AllocError> {
    text.extend_from_slice(line)?;
    text.push(b'\n')?;
    Ok(())
}
