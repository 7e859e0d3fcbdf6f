//! A lesson, read from its Markdown.

use crate::json::json_of;
pub use crate::part::Exchange;
use crate::part::{Part, parts_of, without_front};
use std::alloc::{AllocError, Global};

/// A lesson. Its first line is its title.
#[derive(Drop)]
pub struct Lesson {
    pub title: String,
    pub(crate) parts: Vec<Part>,
}

impl Lesson {
    /// Reads a lesson. Every text is one.
    pub fn read(alloc: Global, text: &str) -> Result<Lesson, AllocError> {
        let title = match text.lines().next() {
            Some(line) => title_of(alloc, line)?,
            None => String::new(alloc),
        };
        let mut lines: Vec<&str> = Vec::new(alloc);
        for line in text.lines().skip(1) {
            lines.push(line)?;
        }
        let parts = parts_of(alloc, title.as_str(), lines.as_slice())?;
        Ok(Lesson { title, parts })
    }

    /// The forms of all blocks with the replies that the lesson shows, in order.
    pub fn exchanges(&self, alloc: Global) -> Result<Vec<&Exchange>, AllocError> {
        let mut all = Vec::new(alloc);
        for part in &self.parts {
            if let Part::Run(exchanges) = part {
                for exchange in exchanges {
                    all.push(exchange)?;
                }
            }
        }
        Ok(all)
    }
}

// A title without the sign, the number and the backquotes of a heading.
fn title_of(alloc: Global, line: &str) -> Result<String, AllocError> {
    let heading = without_front(line, b"# ").unwrap_or(line);
    let mut title = String::new(alloc);
    for piece in without_number(heading).split('`') {
        title.push_str(piece)?;
    }
    Ok(title)
}

// A heading without the number at its front, as `4. `.
fn without_number(heading: &str) -> &str {
    match heading.split_once('.') {
        Some((number, rest)) if is_number(number) => rest.trim(),
        Some(_) | None => heading,
    }
}

fn is_number(text: &str) -> bool {
    !text.is_empty() && text.as_bytes().iter().all(|byte| byte.is_ascii_digit())
}

/// The lessons as the page asks for them: JSON, an array with an object for each lesson.
pub fn lessons_json(alloc: Global, lessons: &[Lesson]) -> Result<String, AllocError> {
    json_of(alloc, lessons)
}
