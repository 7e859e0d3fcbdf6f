//! The operations of a bound, read from its text.

use crate::bound::{BinaryOp, Op, UnaryOp};
use crate::bytes::{is_name_byte, number_of};
use crate::fault::{Expected, LineFault};
use std::alloc::Global;

// What waits for its right number, or for its closing parenthesis.
#[derive(Clone, Copy)]
enum Waiting {
    OfTwo(BinaryOp),
    OfOne(UnaryOp),
    Open,
}

// What may come next.
#[derive(Clone, Copy, PartialEq, Eq)]
enum Wanted {
    Number,
    Sign,
}

// A piece of a bound.
#[derive(Clone, Copy)]
enum Piece {
    Number(u64),
    N,
    OfOne(UnaryOp),
    OfTwo(BinaryOp),
    Open,
    Close,
    Blank,
}

// The bound so far.
#[derive(Drop)]
struct Reading {
    ops: Vec<Op>,
    waiting: Vec<Waiting>,
    wanted: Wanted,
}

/// Reads a bound. Each operation comes after the numbers that it takes.
pub fn parse_bound(alloc: Global, text: &[u8]) -> Result<Vec<Op>, LineFault> {
    let mut reading = Reading {
        ops: Vec::new(alloc),
        waiting: Vec::new(alloc),
        wanted: Wanted::Number,
    };
    let mut word_end = 0;
    for (place, byte) in text.iter().enumerate() {
        if place < word_end {
            continue;
        }
        let word = word_at(text, place);
        if word.is_empty() {
            reading.add(sign_of(*byte)?)?;
        } else {
            word_end = place.saturating_add(word.len());
            reading.add(word_piece(word)?)?;
        }
    }
    reading.finish()
}

// The letters and digits from a place on.
fn word_at(text: &[u8], place: usize) -> &[u8] {
    let Some(rest) = text.get(place..) else {
        return &[];
    };
    let end = rest.iter().position(|byte| !is_name_byte(*byte));
    rest.get(..end.unwrap_or(rest.len())).unwrap_or(&[])
}

fn word_piece(word: &[u8]) -> Result<Piece, LineFault> {
    if word == b"n".as_slice() {
        return Ok(Piece::N);
    }
    if word == b"bits".as_slice() {
        return Ok(Piece::OfOne(UnaryOp::Bits));
    }
    if word == b"log2".as_slice() {
        return Ok(Piece::OfOne(UnaryOp::Log2));
    }
    match number_of(word) {
        Ok(number) => Ok(Piece::Number(number)),
        Err(fault) => Err(fault),
    }
}

fn sign_of(byte: u8) -> Result<Piece, LineFault> {
    match byte {
        b' ' | b'\t' | b'\r' => Ok(Piece::Blank),
        b'(' => Ok(Piece::Open),
        b')' => Ok(Piece::Close),
        b'+' => Ok(Piece::OfTwo(BinaryOp::Plus)),
        b'-' => Ok(Piece::OfTwo(BinaryOp::Minus)),
        b'*' => Ok(Piece::OfTwo(BinaryOp::Times)),
        b'/' => Ok(Piece::OfTwo(BinaryOp::Over)),
        b'^' => Ok(Piece::OfTwo(BinaryOp::Power)),
        _ => Err(bad()),
    }
}

fn bad() -> LineFault {
    LineFault::Expected(Expected::Bound)
}

// How tight an operation binds.
fn tightness(two: BinaryOp) -> u8 {
    match two {
        BinaryOp::Plus | BinaryOp::Minus => 1,
        BinaryOp::Times | BinaryOp::Over => 2,
        BinaryOp::Power => 3,
    }
}

impl Reading {
    fn add(&mut self, piece: Piece) -> Result<(), LineFault> {
        match (piece, self.wanted) {
            (Piece::Blank, _) => Ok(()),
            (Piece::Number(number), Wanted::Number) => self.number(Op::Number(number)),
            (Piece::N, Wanted::Number) => self.number(Op::N),
            (Piece::OfOne(one), Wanted::Number) => self.wait(Waiting::OfOne(one)),
            (Piece::Open, Wanted::Number) => self.wait(Waiting::Open),
            (Piece::OfTwo(two), Wanted::Sign) => self.sign(two),
            (Piece::Close, Wanted::Sign) => self.close(),
            _ => Err(bad()),
        }
    }

    fn number(&mut self, op: Op) -> Result<(), LineFault> {
        if self.follows_function() {
            return Err(bad());
        }
        self.ops.push(op)?;
        self.wanted = Wanted::Sign;
        Ok(())
    }

    // Whether `bits` or `log2` came just before.
    fn follows_function(&self) -> bool {
        match self.waiting.last() {
            Some(Waiting::OfOne(_)) => true,
            _ => false,
        }
    }

    fn wait(&mut self, waiting: Waiting) -> Result<(), LineFault> {
        if self.follows_function() && !matches!(waiting, Waiting::Open) {
            return Err(bad());
        }
        self.waiting.push(waiting)?;
        Ok(())
    }

    // Adds a sign between two numbers, after the signs before it that bind as tight. `^` groups to the right.
    fn sign(&mut self, two: BinaryOp) -> Result<(), LineFault> {
        let own = tightness(two);
        'signs: while let Some(Waiting::OfTwo(before)) = self.waiting.last().copied() {
            let tight = tightness(before);
            if tight < own || (tight == own && matches!(two, BinaryOp::Power)) {
                break;
            }
            self.ops.push(Op::OfTwo(before))?;
            let _ = self.waiting.pop();
        }
        self.waiting.push(Waiting::OfTwo(two))?;
        self.wanted = Wanted::Number;
        Ok(())
    }

    // Closes a parenthesis, and the function before it.
    fn close(&mut self) -> Result<(), LineFault> {
        'waiting: while let Some(waiting) = self.waiting.pop() {
            match waiting {
                Waiting::OfTwo(two) => self.ops.push(Op::OfTwo(two))?,
                Waiting::OfOne(_) => return Err(bad()),
                Waiting::Open => return self.end_function(),
            }
        }
        Err(bad())
    }

    fn end_function(&mut self) -> Result<(), LineFault> {
        if let Some(Waiting::OfOne(one)) = self.waiting.last().copied() {
            self.ops.push(Op::OfOne(one))?;
            let _ = self.waiting.pop();
        }
        Ok(())
    }

    fn finish(self) -> Result<Vec<Op>, LineFault> {
        let mut reading = self;
        if reading.wanted == Wanted::Number {
            return Err(bad());
        }
        'waiting: while let Some(waiting) = reading.waiting.pop() {
            match waiting {
                Waiting::OfTwo(two) => reading.ops.push(Op::OfTwo(two))?,
                Waiting::OfOne(_) | Waiting::Open => return Err(bad()),
            }
        }
        let Reading { ops, .. } = reading;
        Ok(ops)
    }
}
