//! Types in the language's words.

use crate::guesses::{Guess, Guesses};
use crate::walk::Walk;
use nesl_eval_top_level::Payload;
use nesl_types::{Class, Context};
use std::alloc::{AllocError, Global};

/// The most pieces of a type that a sentence has.
const MOST_PIECES: usize = 96;

/// The bytes after which a type goes on by no other piece, since the names of datatypes may be long.
const MOST_BYTES: usize = 4_096;

/// A piece of a text that is still to be written.
#[derive(Clone, Copy)]
enum Piece {
    Text(&'static [u8]),
    /// The type at a place, in parentheses where it is a pair.
    Whole(usize),
    /// The type at a place.
    Rest(usize),
}

/// Types in words, with one letter for each that is open.
#[derive(Drop)]
struct Words<'a> {
    guesses: &'a Guesses,
    context: &'a Context<Payload>,
    letters: Vec<usize>,
}

impl<'a> Words<'a> {
    // No letters yet.
    fn new(walk: &'a Walk<'_>) -> Words<'a> {
        Words {
            guesses: &walk.guesses,
            context: walk.context,
            letters: Vec::new(walk.alloc),
        }
    }

    // Writes the type at a place.
    fn write(&mut self, alloc: Global, place: usize, out: &mut Vec<u8>) -> Result<(), AllocError> {
        match self.guesses.guess(place) {
            Guess::Open(Class::Ordinal) => out.extend_from_slice(b"int or char"),
            Guess::Open(Class::Logical) => out.extend_from_slice(b"int or bool"),
            _ => {
                let mut pieces = Vec::new(alloc);
                self.write_pieces(place, out, &mut pieces)
            }
        }
    }

    // Writes the pieces of the type at a place, of which none is left over yet.
    fn write_pieces(
        &mut self,
        place: usize,
        out: &mut Vec<u8>,
        pieces: &mut Vec<Piece>,
    ) -> Result<(), AllocError> {
        let mut next = Some(Piece::Whole(place));
        for _ in 0..MOST_PIECES {
            let Some(piece) = next else {
                return Ok(());
            };
            if out.len() > MOST_BYTES {
                break;
            }
            self.write_piece(piece, out, pieces)?;
            next = pieces.pop();
        }
        out.extend_from_slice(b" ..")
    }

    // Writes a piece, but for its parts, which are left over.
    fn write_piece(
        &mut self,
        piece: Piece,
        out: &mut Vec<u8>,
        pieces: &mut Vec<Piece>,
    ) -> Result<(), AllocError> {
        let (place, is_part) = match piece {
            Piece::Text(text) => return out.extend_from_slice(text),
            Piece::Whole(place) => (place, true),
            Piece::Rest(place) => (place, false),
        };
        match self.guesses.find(place) {
            (_, Guess::Int) => out.extend_from_slice(b"int")?,
            (_, Guess::Bool) => out.extend_from_slice(b"bool")?,
            (_, Guess::Char) => out.extend_from_slice(b"char")?,
            (_, Guess::Named(tag)) => {
                if let Some((name, _, _)) = self.context.datatype(tag) {
                    out.extend_from_slice(name)?;
                }
            }
            (_, Guess::Sequence(item)) => {
                out.push(b'[')?;
                pieces.push(Piece::Text(b"]"))?;
                pieces.push(Piece::Whole(item))?;
            }
            (_, Guess::Pair(left, right)) => {
                if is_part {
                    out.push(b'(')?;
                    pieces.push(Piece::Text(b")"))?;
                }
                pieces.push(Piece::Rest(right))?;
                pieces.push(Piece::Text(b", "))?;
                pieces.push(Piece::Whole(left))?;
            }
            (at, Guess::Open(_) | Guess::Same(_)) => self.write_letter(at, out)?,
        }
        Ok(())
    }

    // Writes the letter of an open type.
    fn write_letter(&mut self, at: usize, out: &mut Vec<u8>) -> Result<(), AllocError> {
        let known = self.letters.iter().position(|letter| *letter == at);
        let number = match known {
            Some(number) => number,
            None => {
                let next = self.letters.len();
                self.letters.push(at)?;
                next
            }
        };
        out.push(b'a' + (number % 26) as u8)?;
        Ok(())
    }
}

/// Two types in words, which share their letters.
#[derive(Drop)]
pub(crate) struct Types {
    pub(crate) found: Vec<u8>,
    pub(crate) wanted: Vec<u8>,
}

/// The types at two places.
pub(crate) fn types_in_words(
    walk: &Walk<'_>,
    found: usize,
    wanted: usize,
) -> Result<Types, AllocError> {
    let mut words = Words::new(walk);
    let mut types = Types {
        found: Vec::new(walk.alloc),
        wanted: Vec::new(walk.alloc),
    };
    words.write(walk.alloc, found, &mut types.found)?;
    words.write(walk.alloc, wanted, &mut types.wanted)?;
    Ok(types)
}
