//! Hints for browsers.

use nesl_hints::{Hint, hint_below};
use nesl_line::hinted::Hinter;
use nesl_session::answer::Answer;
use nesl_session::session::Session;
use std::alloc::{AllocError, Global};

/// The hints on lines of a WebSocket, as JSON.
#[derive(Clone, Copy)]
pub(crate) struct JsonHints;

impl Hinter for JsonHints {
    fn hint(
        &self,
        alloc: Global,
        session: &Session,
        form: &[u8],
        answer: &Answer,
    ) -> Option<Vec<u8>> {
        let fault = answer.fault()?;
        match hint_below(alloc, session, form, fault) {
            Ok(Some(hint)) => json_of(alloc, &hint).ok(),
            Ok(None) => None,
            Err(_) => None,
        }
    }
}

// Returns a hint as JSON, from the value of its first field on. Its places are bytes of the form.
fn json_of(alloc: Global, hint: &Hint) -> Result<Vec<u8>, AllocError> {
    let places = places_of(alloc, hint)?;
    let mut json = Vec::new(alloc);
    json.push(b'"')?;
    put_escaped(&mut json, hint.sentence.as_slice())?;
    json.extend_from_slice(places.as_bytes())?;
    Ok(json)
}

// Returns the fields after the sentence.
fn places_of(alloc: Global, hint: &Hint) -> Result<String, AllocError> {
    let start = hint.place.start;
    let end = hint.place.end;
    match hint.second {
        Some(second) => {
            let from = second.start;
            let to = second.end;
            format!(in alloc; "\", \"span\": [{start}, {end}], \"second\": [{from}, {to}]}}")
        }
        None => format!(in alloc; "\", \"span\": [{start}, {end}], \"second\": null}}"),
    }
}

// Appends a text as it is written within quotes. A text that quotes a part of a character is no UTF-8; then `?` is
// written in place of each byte that isn't ASCII.
fn put_escaped(json: &mut Vec<u8>, text: &[u8]) -> Result<(), AllocError> {
    let is_utf8 = str::from_utf8(text).is_ok();
    for byte in text {
        if *byte == b'"' || *byte == b'\\' {
            json.push(b'\\')?;
        }
        json.push(if is_utf8 || byte.is_ascii() {
            *byte
        } else {
            b'?'
        })?;
    }
    Ok(())
}
