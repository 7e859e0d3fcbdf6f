//! What the words of scripts do with values.

use crate::telling::{push_comparison, push_number, push_truth, tell};
use nesl_values::{Items, Value};
use nesl_values_builder::SequenceBuilder;
use std::alloc::{AllocError, Allocator, Global};

/// Values, of which the last ones are at hand.
#[derive(Drop)]
pub struct Desk {
    alloc: Global,
    values: Vec<Value>,
}

/// The number that these digits are, or 0.
pub fn number_of(digits: &[u8]) -> u64 {
    str::from_utf8(digits)
        .unwrap_or("")
        .parse::<u64>()
        .unwrap_or(0)
}

fn code_of(digits: &[u8]) -> u8 {
    str::from_utf8(digits)
        .unwrap_or("")
        .parse::<u8>()
        .unwrap_or(0)
}

// The numbers between commas.
fn numbers_of(alloc: Global, list: &[u8]) -> Result<Vec<i64>, AllocError> {
    let mut numbers = Vec::new(alloc);
    for word in str::from_utf8(list).unwrap_or("").split(',') {
        if let Ok(number) = word.parse::<i64>() {
            numbers.push(number)?;
        }
    }
    Ok(numbers)
}

// The truth values that these letters are.
fn truths_of(alloc: Global, letters: &[u8]) -> Result<Vec<bool>, AllocError> {
    let mut truths = Vec::new(alloc);
    for letter in letters {
        truths.push(*letter == b'T')?;
    }
    Ok(truths)
}

// The value of a word alone.
fn made(alloc: Global, letter: u8, rest: &[u8]) -> Result<Value, AllocError> {
    match letter {
        b'T' => Ok(Value::Bool(true)),
        b'F' => Ok(Value::Bool(false)),
        b'\'' => Ok(Value::Char(code_of(rest))),
        b'e' => Value::empty(alloc),
        b'i' => Value::ints(alloc, numbers_of(alloc, rest)?),
        b'b' => Value::bools(alloc, truths_of(alloc, rest)?),
        b'c' => Value::chars(alloc, Vec::from_slice(alloc, rest)?),
        _ => Err(AllocError),
    }
}

// The sequence of these two, which are values of their own.
fn sequence(alloc: Global, first: Value, second: Value) -> Result<Value, AllocError> {
    let mut items = Vec::with_capacity(alloc, 2)?;
    items.push(first)?;
    items.push(second)?;
    Value::sequence(alloc, items)
}

/// The pair of a value with itself, and so on, that many times.
pub fn doubled<A: Allocator + Copy>(
    alloc: A,
    mut value: Value<A>,
    times: u64,
) -> Result<Value<A>, AllocError> {
    for _time in 0..times {
        let twin = value.share()?;
        value = Value::pair(alloc, value, twin)?;
    }
    Ok(value)
}

// The sequence of copies of these elements.
fn copies(alloc: Global, items: Items<'_>) -> Result<Value, AllocError> {
    let mut builder = SequenceBuilder::new(alloc);
    builder.extend_copies(items)?;
    builder.finish()
}

// What a value is or has, which it stays or keeps.
fn beside(alloc: Global, value: &Value, letter: u8, place: usize) -> Result<Value, AllocError> {
    let items = value.items();
    match letter {
        b'y' => value.share(),
        b'k' => value.copy_into(alloc),
        b'@' if place < items.len() => value.element(place).share(),
        b'^' if place < items.len() => items.at(place).share(),
        b'~' if place <= items.len() => copies(alloc, items.part(0, place)),
        _ => Err(AllocError),
    }
}

impl Desk {
    pub fn new(alloc: Global) -> Desk {
        Desk {
            alloc,
            values: Vec::new(alloc),
        }
    }

    /// Does what a script says, and writes the answers, each after a blank.
    pub fn run(&mut self, script: &str, text: &mut String) -> Result<(), AllocError> {
        for word in script.split(' ') {
            match word.as_bytes() {
                [b'-' | b'0'..=b'9', ..] => {
                    self.push(Ok(Value::Int(word.parse::<i64>().unwrap_or(0))))?;
                }
                [letter, rest @ ..] => self.act(*letter, rest, text)?,
                _ => {}
            }
        }
        Ok(())
    }

    fn act(&mut self, letter: u8, rest: &[u8], text: &mut String) -> Result<(), AllocError> {
        match letter {
            b'T' | b'F' | b'\'' | b'e' | b'i' | b'b' | b'c' => {
                self.push(made(self.alloc, letter, rest))
            }
            b'p' | b't' | b's' | b'd' => self.make(letter, number_of(rest)),
            b'y' | b'k' | b'@' | b'^' | b'~' => self.make_beside(letter, number_of(rest) as usize),
            b'!' => self.refuse(rest, text),
            b'x' | b'w' | b'>' | b'<' => self.turn(letter, text),
            _ => self.tell(letter, rest, text),
        }
    }

    fn push(&mut self, value: Result<Value, AllocError>) -> Result<(), AllocError> {
        self.values.push(value?)?;
        Ok(())
    }

    fn pop(&mut self) -> Result<Value, AllocError> {
        self.values.pop().ok_or(AllocError)
    }

    // Makes a value of the last ones.
    fn make(&mut self, letter: u8, number: u64) -> Result<(), AllocError> {
        let last = self.pop()?;
        let made = match letter {
            b'p' => Value::pair(self.alloc, self.pop()?, last),
            b's' => sequence(self.alloc, self.pop()?, last),
            b't' => Value::tagged(self.alloc, number, last),
            _ => doubled(self.alloc, last, number),
        };
        self.push(made)
    }

    // Tells whether that is refused.
    fn refuse(&mut self, word: &[u8], text: &mut String) -> Result<(), AllocError> {
        let is_refused = match word {
            [letter, rest @ ..] => self.make(*letter, number_of(rest)).is_err(),
            [] => false,
        };
        push_truth(" ", is_refused, text)
    }

    fn make_beside(&mut self, letter: u8, place: usize) -> Result<(), AllocError> {
        let made = match self.values.last() {
            Some(value) => beside(self.alloc, value, letter, place),
            None => Err(AllocError),
        };
        self.push(made)
    }

    // Drops the last value, changes places with the one before it, or puts its parts in its place.
    fn turn(&mut self, letter: u8, text: &mut String) -> Result<(), AllocError> {
        let last = self.pop()?;
        match letter {
            b'w' => {
                let before = self.pop()?;
                self.push(Ok(last))?;
                self.push(Ok(before))
            }
            b'>' => self.push_parts(last.into_pair()?, text),
            b'<' => self.push_inner(last.into_tagged()?, text),
            _ => Ok(()),
        }
    }

    fn push_parts(
        &mut self,
        parts: Option<(Value, Value)>,
        text: &mut String,
    ) -> Result<(), AllocError> {
        match parts {
            Some((left, right)) => {
                self.push(Ok(left))?;
                self.push(Ok(right))
            }
            None => text.push_str(" none"),
        }
    }

    fn push_inner(
        &mut self,
        inner: Option<(u64, Value)>,
        text: &mut String,
    ) -> Result<(), AllocError> {
        match inner {
            Some((tag, inner)) => {
                self.push(Ok(inner))?;
                push_number(" ", tag, text)
            }
            None => text.push_str(" none"),
        }
    }

    // Tells of the last value, or compares it with the one before it.
    fn tell(&self, letter: u8, rest: &[u8], text: &mut String) -> Result<(), AllocError> {
        let Some((last, before)) = self.values.split_last() else {
            return Err(AllocError);
        };
        match (letter, before.last()) {
            (b'=', Some(one)) => push_comparison(self.alloc, one, last, text),
            _ => tell(last, letter, rest, text),
        }
    }
}

/// The value that is last after a script.
pub fn value_of(alloc: Global, script: &str) -> Result<Value, AllocError> {
    let mut desk = Desk::new(alloc);
    let mut text = String::new(alloc);
    desk.run(script, &mut text)?;
    desk.pop()
}

/// A value with every kind of node: ([3, -4, 5], 7([(-1, "ab"), ((T, `z), [T, F])])), of 19 nodes.
pub fn sample(alloc: Global) -> Result<Value, AllocError> {
    value_of(alloc, "i3,-4,5 -1 cab p T '122 p bTF p s t7 p")
}
