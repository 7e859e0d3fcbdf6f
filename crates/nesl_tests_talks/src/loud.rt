//! A hint that is more than one line.

use nesl_line::hinted::Hinter;
use nesl_session::answer::Answer;
use nesl_session::session::Session;
use std::alloc::Global;

/// Has the form as its hint, between line ends.
#[derive(Clone, Copy)]
pub struct Loud;

impl Hinter for Loud {
    fn hint(
        &self,
        alloc: Global,
        _session: &Session,
        form: &[u8],
        _answer: &Answer,
    ) -> Option<Vec<u8>> {
        let mut text = match Vec::from_slice(alloc, b"\nthe form is\t") {
            Ok(text) => text,
            Err(_) => return None,
        };
        if text.extend_from_slice(form).is_err() || text.push(b'\n').is_err() {
            return None;
        }
        Some(text)
    }
}
