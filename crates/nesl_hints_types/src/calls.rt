//! Calls and operators.

use crate::clash::{Clash, Halt, Role, Shortage, Typed};
use crate::copies::Ends;
use crate::guesses::Guess;
use crate::walk::Walk;
use nesl_builtins::{named, of_infix, of_prefix};
use nesl_lex::token::Span;
use nesl_syntax_tree::tree::{Exp, Node, Operator, Prefix};
use nesl_types::Top;

/// An argument that doesn't fit.
#[derive(Clone, Copy)]
struct Misfit {
    /// The number of arguments before it.
    before: u64,
    found: Typed,
    /// The place of the type that it should have.
    wanted: usize,
}

impl<'e> Walk<'e> {
    /// The place of the type of a call, whose argument has the type at a place.
    pub(crate) fn call(
        &mut self,
        span: Span,
        name: &'e [u8],
        argument: &'e Exp,
        given: usize,
    ) -> Result<usize, Halt> {
        let ends = self.ends(name)?;
        if self.guesses.join(given, ends.takes)? {
            let ty = ends.gives;
            self.calls.push(Typed::new(span, ty))?;
            return Ok(ty);
        }
        let misfit = self.misfit(argument, given, ends.takes)?;
        self.blamed = name;
        let role = if misfit.found.ty == given {
            Role::Argument
        } else {
            Role::OneArgument(misfit.before)
        };
        Err(Halt::Found(Clash {
            role,
            found: misfit.found,
            second: None,
            wanted: misfit.wanted,
        }))
    }

    // What the function with a name takes and gives.
    fn ends(&mut self, name: &[u8]) -> Result<Ends, Shortage> {
        if let Some(own) = &self.own {
            if own.name == name {
                return Ok(own.ends);
            }
        }
        if let Some(builtin) = named(name) {
            return self.guesses.builtin(builtin);
        }
        let context = self.context;
        match context.get(name) {
            Some((Top::Function(scheme), _)) => self.guesses.scheme(scheme),
            Some((Top::Datatype(tag, content), _)) => self.guesses.maker(*tag, content),
            _ => self.guesses.unknown(),
        }
    }

    // The argument of a call that doesn't fit.
    fn misfit(&mut self, exp: &Exp, ty: usize, wanted: usize) -> Result<Misfit, Shortage> {
        let whole = Misfit {
            before: 0,
            found: Typed::new(exp.span, ty),
            wanted,
        };
        let (first, rest) = match self.guesses.guess(ty) {
            Guess::Pair(first, rest) => (first, rest),
            _ => return Ok(whole),
        };
        let (own, others) = match self.guesses.guess(wanted) {
            Guess::Pair(own, others) => (own, others),
            _ => return Ok(whole),
        };
        match &exp.node {
            Node::Pair { left, right } => {
                if !self.guesses.join(first, own)? {
                    let found = Typed::new(left.span, first);
                    return Ok(Misfit {
                        before: 0,
                        found,
                        wanted: own,
                    });
                }
                let found = self.misfit(right, rest, others)?;
                Ok(Misfit {
                    before: found.before.saturating_add(1),
                    ..found
                })
            }
            _ => Ok(whole),
        }
    }

    /// The place of the type of an operator before an expression.
    pub(crate) fn prefix(&mut self, operator: Prefix, found: Typed) -> Result<usize, Halt> {
        let ends = self.guesses.builtin(of_prefix(operator))?;
        self.join(Role::Operand(operator), found, ends.takes)?;
        Ok(ends.gives)
    }

    /// The place of the type of an operator between two expressions.
    pub(crate) fn infix(
        &mut self,
        operator: Operator,
        left: Typed,
        right: Typed,
    ) -> Result<usize, Halt> {
        let ends = self.guesses.builtin(of_infix(operator))?;
        if let Guess::Pair(first, second) = self.guesses.guess(ends.takes) {
            self.join_beside(Role::Left(operator), left, Some(right), first)?;
            self.join_beside(Role::Right(operator), right, Some(left), second)?;
        }
        Ok(ends.gives)
    }

    /// The place of the type of an element of a sequence.
    pub(crate) fn index(&mut self, items: Typed, number: Typed) -> Result<usize, Halt> {
        let item = self.guesses.open()?;
        self.expect(Guess::Sequence(item), Role::Indexed, items)?;
        self.expect(Guess::Int, Role::Index, number)?;
        Ok(item)
    }
}
