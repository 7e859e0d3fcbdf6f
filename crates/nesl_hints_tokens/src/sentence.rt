//! Sentences, which are made of texts with gaps.

use crate::hint::Hint;
use nesl_lex::token::Span;
use std::alloc::{AllocError, Global};

/// What is written into a gap of a text: the gap's name and its bytes.
#[derive(Clone, Copy)]
pub struct Filling<'a>(pub &'static str, pub &'a [u8]);

/// A sentence that is being written.
#[derive(Drop)]
pub struct Sentence {
    bytes: Vec<u8>,
}

impl Sentence {
    /// A sentence that says this, in which each `{name}` of a filling is filled.
    pub fn of(alloc: Global, text: &str, fillings: &[Filling<'_>]) -> Result<Sentence, AllocError> {
        let mut sentence = Sentence {
            bytes: Vec::new(alloc),
        };
        sentence.add(text, fillings)?;
        Ok(sentence)
    }

    /// A sentence that says these texts one after the other, in which each `{name}` of a filling is filled.
    pub fn of_all(
        alloc: Global,
        texts: &[&str],
        fillings: &[Filling<'_>],
    ) -> Result<Sentence, AllocError> {
        let mut sentence = Sentence {
            bytes: Vec::new(alloc),
        };
        for text in texts {
            sentence.add(text, fillings)?;
        }
        Ok(sentence)
    }

    /// A sentence that says this, in which each `#` is the next of these numbers.
    pub fn with_numbers(
        alloc: Global,
        text: &str,
        numbers: &[u64],
    ) -> Result<Sentence, AllocError> {
        let mut sentence = Sentence {
            bytes: Vec::new(alloc),
        };
        sentence.add_numbers(alloc, text, numbers)?;
        Ok(sentence)
    }

    // The sentence goes on with this, in which each `#` is the next of these numbers.
    fn add_numbers(
        &mut self,
        alloc: Global,
        text: &str,
        numbers: &[u64],
    ) -> Result<(), AllocError> {
        for (place, piece) in text.split('#').enumerate() {
            if place > 0 {
                let digits = digits_of(alloc, numbers.get(place - 1))?;
                self.bytes.extend_from_slice(digits.as_bytes())?;
            }
            self.bytes.extend_from_slice(piece.as_bytes())?;
        }
        Ok(())
    }

    /// The sentence goes on with this, in which each `{name}` of a filling is filled. Other braces are the text's own.
    pub fn add(&mut self, text: &str, fillings: &[Filling<'_>]) -> Result<(), AllocError> {
        let mut pieces = text.split('{');
        if let Some(front) = pieces.next() {
            self.bytes.extend_from_slice(front.as_bytes())?;
        }
        for piece in pieces {
            match fill_front(piece, fillings) {
                Some((filled, rest)) => {
                    self.bytes.extend_from_slice(filled)?;
                    self.bytes.extend_from_slice(rest.as_bytes())?;
                }
                None => {
                    self.bytes.push(b'{')?;
                    self.bytes.extend_from_slice(piece.as_bytes())?;
                }
            }
        }
        Ok(())
    }

    /// The hint that says this of a place.
    pub fn at(self, place: Span) -> Hint {
        Hint {
            place,
            second: None,
            sentence: self.bytes,
        }
    }
}

// The digits of a number, or none where there is no number.
fn digits_of(alloc: Global, number: Option<&u64>) -> Result<String, AllocError> {
    match number {
        Some(number) => format!(in alloc; "{number}"),
        None => Ok(String::new(alloc)),
    }
}

// What fills the gap whose name is at the front of the text, and the text after the gap.
fn fill_front<'t, 'f>(text: &'t str, fillings: &[Filling<'f>]) -> Option<(&'f [u8], &'t str)> {
    let (gap, rest) = text.split_once('}')?;
    for Filling(name, bytes) in fillings {
        if gap == *name {
            return Some((*bytes, rest));
        }
    }
    None
}
