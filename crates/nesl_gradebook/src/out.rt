//! A report in the making.

use std::alloc::{AllocError, Global};

/// How a text that strangers wrote is written, so that it can't end what it is part of.
#[derive(Clone, Copy)]
pub(crate) enum Escape {
    /// On a terminal, or where a library writes the signs around it.
    Plain,
    /// In XML or HTML. Line ends and tabs stay.
    Markup,
}

/// A report in the making. If memory runs out, what follows is dropped, and so is the report at its end.
#[derive(Drop)]
pub(crate) struct Out {
    alloc: Global,
    text: String,
    is_lost: bool,
}

impl Out {
    pub(crate) fn new(alloc: Global) -> Out {
        Out {
            alloc,
            text: String::new(alloc),
            is_lost: false,
        }
    }

    /// Appends a text of our own as it is.
    pub(crate) fn put(&mut self, text: &str) {
        if self.text.push_str(text).is_err() {
            self.is_lost = true;
        }
    }

    pub(crate) fn put_number(&mut self, number: u128) {
        match number.to_string(self.alloc) {
            Ok(digits) => self.put(digits.as_str()),
            Err(_) => self.is_lost = true,
        }
    }

    /// Appends a text of our own and a number.
    pub(crate) fn put_named(&mut self, name: &str, number: u64) {
        self.put(name);
        self.put_number(u128::from(number));
    }

    /// Appends a text that strangers wrote. Bytes that aren't UTF-8 are replaced, and control characters are left out,
    /// also those that turn the direction of a text.
    pub(crate) fn put_shown(&mut self, escape: Escape, text: &[u8]) {
        self.put_shown_up_to(escape, text, usize::MAX);
    }

    /// The same for its first characters, at most this many. If there are more, three dots follow.
    pub(crate) fn put_shown_up_to(&mut self, escape: Escape, text: &[u8], most: usize) {
        match String::from_utf8_lossy(self.alloc, text) {
            Ok(text) => {
                for (count, character) in text.chars().enumerate() {
                    if count >= most {
                        self.put("...");
                        return;
                    }
                    self.put_character(escape, character);
                }
            }
            Err(_) => self.is_lost = true,
        }
    }

    fn put_character(&mut self, escape: Escape, character: char) {
        if let Some(text) = escaped(escape, character) {
            self.put(text);
        } else if is_shown(character) {
            if self.text.push(character).is_err() {
                self.is_lost = true;
            }
        }
    }

    /// Returns the report.
    pub(crate) fn finish(self) -> Result<Vec<u8>, AllocError> {
        let Out { text, is_lost, .. } = self;
        if is_lost {
            return Err(AllocError);
        }
        Ok(text.into_bytes())
    }
}

/// Returns a text that strangers wrote as UTF-8 without control characters.
pub fn shown(alloc: Global, text: &[u8]) -> Result<String, AllocError> {
    let mut out = Out::new(alloc);
    out.put_shown(Escape::Plain, text);
    if out.is_lost {
        return Err(AllocError);
    }
    let Out { text, .. } = out;
    Ok(text)
}

// Whether a character is written where it is not escaped. XML has no place for the last two.
fn is_shown(character: char) -> bool {
    !character.is_control()
        && !turns_text(character)
        && character != '\u{fffe}'
        && character != '\u{ffff}'
}

// Whether a character ends a line, or turns the direction of what is written beside it.
fn turns_text(character: char) -> bool {
    character == '\u{61c}'
        || character == '\u{200e}'
        || character == '\u{200f}'
        || (character >= '\u{2028}' && character <= '\u{202e}')
        || (character >= '\u{2066}' && character <= '\u{2069}')
}

// What is written in place of a character.
fn escaped(escape: Escape, character: char) -> Option<&'static str> {
    match escape {
        Escape::Plain => None,
        Escape::Markup => in_markup(character),
    }
}

fn in_markup(character: char) -> Option<&'static str> {
    match character {
        '&' => Some("&amp;"),
        '<' => Some("&lt;"),
        '>' => Some("&gt;"),
        '"' => Some("&quot;"),
        '\'' => Some("&#39;"),
        '\n' => Some("\n"),
        '\t' => Some("\t"),
        _ => None,
    }
}
