//! Lessons in JSON, part by part: an array of the part's kind and of what it has.

use crate::lesson::Lesson;
use crate::part::{Exchange, ExerciseText, Part};
use serde::Serialize;
use std::alloc::{AllocError, Global};

/// What the page shows beside the title of a lesson.
const ABOUT: &str = "";

/// Returns lessons in JSON.
pub(crate) fn json_of(alloc: Global, lessons: &[Lesson]) -> Result<String, AllocError> {
    let mut json = String::new(alloc);
    json.push_str("[")?;
    for (place, lesson) in lessons.iter().enumerate() {
        put_comma(&mut json, place)?;
        put_lesson(alloc, &mut json, lesson)?;
    }
    json.push_str("]\n")?;
    Ok(json)
}

fn put_comma(json: &mut String, place: usize) -> Result<(), AllocError> {
    if place > 0 {
        json.push_str(",\n")?;
    }
    Ok(())
}

fn put_lesson(alloc: Global, json: &mut String, lesson: &Lesson) -> Result<(), AllocError> {
    json.push_str("{\"title\": ")?;
    put(alloc, json, &lesson.title)?;
    json.push_str(", \"about\": ")?;
    put(alloc, json, &ABOUT)?;
    json.push_str(", \"parts\": [")?;
    for (place, part) in lesson.parts.iter().enumerate() {
        put_comma(json, place)?;
        put_part(alloc, json, part)?;
    }
    json.push_str("]}")
}

fn put_part(alloc: Global, json: &mut String, part: &Part) -> Result<(), AllocError> {
    match part {
        Part::Heading(text) => put(alloc, json, &("h", text)),
        Part::Text(text) => put(alloc, json, &("p", text)),
        Part::List(items) => put(alloc, json, &("list", items)),
        Part::Table(rows) => put(alloc, json, &("table", rows)),
        Part::Code(text) => put(alloc, json, &("code", text)),
        Part::Run(exchanges) => put_exchanges(alloc, json, exchanges.as_slice()),
        Part::Exercise(exercise) => put(alloc, json, &("exercise", exercise)),
    }
}

// A block: an array of forms and their replies.
fn put_exchanges(
    alloc: Global,
    json: &mut String,
    exchanges: &[Exchange],
) -> Result<(), AllocError> {
    let mut pairs = Vec::new(alloc);
    for exchange in exchanges {
        pairs.push((exchange.form.as_str(), exchange.reply.as_str()))?;
    }
    put(alloc, json, &("say", &pairs))
}

// Appends a value in JSON.
fn put<T: Serialize>(alloc: Global, json: &mut String, value: &T) -> Result<(), AllocError> {
    match serde_json::to_string(alloc, value) {
        Ok(text) => json.push_str(text.as_str()),
        Err(_) => Err(AllocError),
    }
}
