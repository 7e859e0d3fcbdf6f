//! Patterns, and types as they are written.

use crate::clash::{Halt, Role, Shortage, Typed};
use crate::guesses::Guess;
use crate::names::Names;
use crate::walk::Walk;
use nesl_lex::token::Span;
use nesl_syntax_tree::tree::{Pattern, PatternNode, TypeExp, TypeNode};

impl<'e> Walk<'e> {
    /// Binds the names of a pattern, which is of the type at a place.
    pub(crate) fn bind(&mut self, pattern: &'e Pattern, place: usize) -> Result<(), Halt> {
        match &pattern.node {
            PatternNode::Name(name) => Ok(self.names.bind(name.as_slice(), place)?),
            PatternNode::Pair { left, right } => {
                let (first, second) = self.parts(pattern.span, place)?;
                self.bind(left, first)?;
                self.bind(right, second)
            }
            PatternNode::Record { name, part } => {
                let content = self.content(pattern.span, name.as_slice(), place)?;
                self.bind(part, content)
            }
        }
    }

    // The parts of the type at a place, which has to be a pair.
    fn parts(&mut self, span: Span, ty: usize) -> Result<(usize, usize), Halt> {
        if let Guess::Pair(first, second) = self.guesses.guess(ty) {
            return Ok((first, second));
        }
        let first = self.guesses.open()?;
        let second = self.guesses.open()?;
        self.expect(Guess::Pair(first, second), Role::Pair, Typed::new(span, ty))?;
        Ok((first, second))
    }

    // What a record of the type at a place holds, which has to be the datatype with this name.
    fn content(&mut self, span: Span, name: &'e [u8], ty: usize) -> Result<usize, Halt> {
        let Some((tag, content)) = self.datatype(name) else {
            return Ok(self.guesses.open()?);
        };
        self.blamed = name;
        self.expect(Guess::Named(tag), Role::Record, Typed::new(span, ty))?;
        Ok(self.guesses.copy(&content.whole(), &[])?)
    }

    /// The place of a type that is written. Names that are no datatypes mean one type each, and are noted.
    pub(crate) fn written(
        &mut self,
        written: &'e TypeExp,
        names: &mut Names<'e>,
    ) -> Result<usize, Shortage> {
        match &written.node {
            TypeNode::Int => self.guesses.add(Guess::Int),
            TypeNode::Bool => self.guesses.add(Guess::Bool),
            TypeNode::Char => self.guesses.add(Guess::Char),
            TypeNode::Name { name, .. } => self.named_type(name.as_slice(), names),
            TypeNode::Sequence(item) => {
                let item = self.written(item, names)?;
                self.guesses.add(Guess::Sequence(item))
            }
            TypeNode::Pair { left, right } => {
                let first = self.written(left, names)?;
                let second = self.written(right, names)?;
                self.guesses.add(Guess::Pair(first, second))
            }
        }
    }

    /// The place of the type that a name means.
    pub(crate) fn named_type(
        &mut self,
        name: &'e [u8],
        names: &mut Names<'e>,
    ) -> Result<usize, Shortage> {
        if let Some((tag, _)) = self.datatype(name) {
            return self.guesses.add(Guess::Named(tag));
        }
        if let Some(place) = names.place_of(name) {
            return Ok(place);
        }
        let place = self.guesses.open()?;
        names.bind(name, place)?;
        Ok(place)
    }
}
