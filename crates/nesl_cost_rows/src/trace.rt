//! Traces: what an evaluation cost, mark by mark.
ghost use Rattle.std.specs.Prelude.{◌≡◌, ◌++◌, ◌∷◌, [], OnOk, map};
ghost use Rattle.nesl_cost_rows.specs.Written.{note_of, notes_of};

use nesl_lex::token::Span;
use std::alloc::{AllocError, Global};

/// A mark of a trace. Spans are in the line, or in the text of the function that was called last and is not over.
#[derive(Clone, Copy)]
pub enum Mark<'a> {
    /// A node was entered, which costs 1 of both.
    Entered(Span),
    /// What a node cost besides.
    Besides { span: Span, work: u64, depth: u64 },
    /// A turn of an apply-to-each begins, at this place.
    Turn { span: Span, place: u64 },
    /// The turn is over, and those after it begin, which are beside it.
    Others,
    /// The turns after one are over.
    Turned,
    /// The body of a function begins, which is called at a span.
    Called { name: &'a [u8], span: Span },
    /// The body is over.
    Returned,
}

/// What an evaluation cost, from its first mark to its last.
#[derive(Drop)]
pub struct Trace<'a> {
    marks: Vec<Mark<'a>>,
}

impl<'a> Trace<'a> {
    /// A trace without marks.
    pub fn new(alloc: Global) -> Self
        ensures { notes_of result ≡ [] }
    {
        Trace {
            marks: Vec::new(alloc),
        }
    }

    /// One more mark.
    #[tactic(auto, using(crate::proofs::Added::one_more))]
    pub fn add(&mut self, mark: Mark<'a>) -> Result<(), AllocError>
        ensures { OnOk result (notes_of self.new ≡ notes_of self.old ++ note_of mark.entry ∷ []) }
    {
        self.marks.push(mark)?;
        Ok(())
    }

    /// All marks, from the first to the last.
    pub fn marks(&self) -> &[Mark<'a>]
        ensures { map note_of result.now ≡ notes_of self.now }
    {
        self.marks.as_slice()
    }
}
