//! Making two types the same.

use crate::clash::Shortage;
use crate::guesses::{Guess, Guesses, of_class};
use nesl_types::{Class, meet};
use std::alloc::AllocError;

/// Which part of a type is sought.
#[derive(Clone, Copy)]
pub(crate) enum Sought {
    /// The part at this place.
    At(usize),
    /// A part that is open.
    Open,
}

/// Whether the type is in the class, whose parts don't matter.
fn is_in(class: Class, guess: Guess) -> bool {
    match class {
        Class::Any => true,
        Class::Number => matches!(guess, Guess::Int),
        Class::Ordinal => matches!(guess, Guess::Int | Guess::Char),
        Class::Logical => matches!(guess, Guess::Int | Guess::Bool),
    }
}

// Whether two types that aren't open are the same but for their parts, which are left over.
fn join_closed(
    left: Guess,
    right: Guess,
    rest: &mut Vec<(usize, usize)>,
) -> Result<bool, AllocError> {
    match (left, right) {
        (Guess::Int, Guess::Int) => Ok(true),
        (Guess::Bool, Guess::Bool) => Ok(true),
        (Guess::Char, Guess::Char) => Ok(true),
        (Guess::Named(tag), Guess::Named(own)) => Ok(tag == own),
        (Guess::Sequence(item), Guess::Sequence(own)) => {
            rest.push((item, own))?;
            Ok(true)
        }
        (Guess::Pair(a, b), Guess::Pair(c, d)) => {
            rest.push((b, d))?;
            rest.push((a, c))?;
            Ok(true)
        }
        _ => Ok(false),
    }
}

// Leaves the parts of a type over.
fn leave_parts(guess: Guess, rest: &mut Vec<usize>) -> Result<(), AllocError> {
    match guess {
        Guess::Sequence(item) => rest.push(item)?,
        Guess::Pair(left, right) => {
            rest.push(right)?;
            rest.push(left)?;
        }
        _ => {}
    }
    Ok(())
}

impl Guesses {
    /// Makes two types the same, if they can be; if they can't, nothing changes.
    pub(crate) fn join(&mut self, first: usize, second: usize) -> Result<bool, Shortage> {
        self.before.clear();
        let mut rest = Vec::new(self.alloc);
        self.join_parts(first, second, &mut rest)
    }

    // The same, where the pairs of parts that are left over have yet to be made the same.
    fn join_parts(
        &mut self,
        first: usize,
        second: usize,
        rest: &mut Vec<(usize, usize)>,
    ) -> Result<bool, Shortage> {
        let mut next = Some((first, second));
        for _ in 0..self.steps {
            let Some((one, other)) = next else {
                return Ok(true);
            };
            if !self.join_one(one, other, rest)? {
                self.take_back();
                return Ok(false);
            }
            next = rest.pop();
        }
        Err(Shortage::Steps)
    }

    // Makes two types the same but for their parts, which are left over.
    fn join_one(
        &mut self,
        one: usize,
        other: usize,
        rest: &mut Vec<(usize, usize)>,
    ) -> Result<bool, Shortage> {
        let (first, left) = self.look(one)?;
        let (second, right) = self.look(other)?;
        if first == second {
            return Ok(true);
        }
        let (fits, known) = match (left, right) {
            (Guess::Open(class), Guess::Open(more)) => (true, of_class(meet(class, more))),
            (Guess::Open(class), _) => (self.closes(first, class, second, right)?, right),
            (_, Guess::Open(class)) => (self.closes(second, class, first, left)?, left),
            _ => (join_closed(left, right, rest)?, right),
        };
        if fits {
            self.unite(first, second, known)?;
        }
        Ok(fits)
    }

    // Whether an open type of a class can be the one at a place, of which this is known.
    fn closes(
        &mut self,
        open: usize,
        class: Class,
        place: usize,
        known: Guess,
    ) -> Result<bool, Shortage> {
        if !is_in(class, known) {
            return Ok(false);
        }
        self.search();
        Ok(!self.has_part(place, Sought::At(open))?)
    }

    /// Whether a part of the type at a place is sought. A part that the search has come by is not looked at again.
    pub(crate) fn has_part(&mut self, place: usize, sought: Sought) -> Result<bool, Shortage> {
        let mut rest = Vec::new(self.alloc);
        self.has_part_among(place, sought, &mut rest)
    }

    // The same, where the parts that are left over have yet to be looked at.
    fn has_part_among(
        &mut self,
        place: usize,
        sought: Sought,
        rest: &mut Vec<usize>,
    ) -> Result<bool, Shortage> {
        let mut next = Some(place);
        for _ in 0..self.steps {
            let Some(here) = next else {
                return Ok(false);
            };
            let (at, guess) = self.look(here)?;
            let is_new = self.is_new(at);
            match (sought, guess) {
                (Sought::At(part), _) if at == part => return Ok(true),
                (Sought::Open, Guess::Open(_)) if is_new => return Ok(true),
                _ => {}
            }
            if is_new {
                leave_parts(guess, rest)?;
            }
            next = rest.pop();
        }
        Err(Shortage::Steps)
    }
}
