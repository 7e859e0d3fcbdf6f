//! A form that is refused.

use nesl_eval_top_level::Env;
use nesl_hints_tokens::{Hint, Sentence};
use nesl_lex::token::Span;
use nesl_session::session::Session;
use std::alloc::{AllocError, Global};

/// A form that is refused, and the session that refuses it.
#[derive(Clone, Copy)]
pub struct Asked<'a> {
    /// Where sentences are made.
    pub alloc: Global,
    /// The session.
    pub session: &'a Session,
    /// The whole form.
    pub text: &'a [u8],
}

impl<'a> Asked<'a> {
    /// What the names of the session mean.
    pub(crate) fn environment(&self) -> &'a Env {
        let session = self.session;
        session.meanings().environment()
    }

    /// The most work that the form may take.
    pub(crate) fn budget(&self) -> u64 {
        let limits = self.session.limits();
        limits.line_work.min(self.session.remaining().work)
    }

    /// The hint that says this of the whole form.
    pub(crate) fn whole(&self, said: &str) -> Result<Hint, AllocError> {
        Ok(Sentence::of(self.alloc, said, &[])?.at(self.place()))
    }

    /// The bytes of the whole form.
    pub(crate) fn place(&self) -> Span {
        Span {
            start: 0,
            end: self.text.len(),
        }
    }
}
