//! A walk over an expression, which finds the type of each part.

use crate::clash::{Clash, Halt, Role, Shortage, Typed};
use crate::copies::Ends;
use crate::guesses::{Guess, Guesses};
use crate::join::Sought;
use crate::names::Names;
use nesl_eval_top_level::Payload;
use nesl_syntax_tree::tree::{Binding, Exp, Node, TypeExp};
use nesl_types::{Context, Top, Ty};
use std::alloc::Global;

/// A function in whose body the walk is.
#[derive(Clone, Copy)]
pub(crate) struct Own<'e> {
    pub(crate) name: &'e [u8],
    pub(crate) ends: Ends,
}

/// A walk over a form.
#[derive(Drop)]
pub struct Walk<'e> {
    pub(crate) alloc: Global,
    pub(crate) context: &'e Context<Payload>,
    /// The types of the parts.
    pub guesses: Guesses,
    pub(crate) names: Names<'e>,
    pub(crate) own: Option<Own<'e>>,
    /// The function or the datatype whose name the role of a part that doesn't fit leaves out.
    pub(crate) blamed: &'e [u8],
    /// The calls so far, and the places of their types.
    pub(crate) calls: Vec<Typed>,
}

impl<'e> Walk<'e> {
    /// A walk over a form of this number of bytes, which has yet to begin. The context has the meanings of names.
    pub fn new(alloc: Global, context: &'e Context<Payload>, bytes: usize) -> Walk<'e> {
        Walk {
            alloc,
            context,
            guesses: Guesses::new(alloc, bytes),
            names: Names::new(alloc),
            own: None,
            blamed: b"",
            calls: Vec::new(alloc),
        }
    }

    /// The place of the type of an expression.
    #[cycle(walk)]
    pub(crate) fn check(&mut self, exp: &'e Exp) -> Result<usize, Halt> {
        match &exp.node {
            Node::Call { name, argument } => {
                let given = self.check(argument)?;
                self.call(exp.span, name.as_slice(), argument, given)
            }
            Node::Pair { left, right } => {
                let (first, second) = self.check_two(left, right)?;
                self.add(Guess::Pair(first.ty, second.ty))
            }
            Node::Prefix { operator, operand } => {
                let ty = self.check(operand)?;
                self.prefix(*operator, Typed::new(operand.span, ty))
            }
            Node::Infix {
                operator,
                left,
                right,
            } => {
                let (first, second) = self.check_two(left, right)?;
                self.infix(*operator, first, second)
            }
            Node::Index { sequence, index } => {
                let (items, number) = self.check_two(sequence, index)?;
                self.index(items, number)
            }
            Node::Choice { test, yes, no } => self.check_choice(test, yes, no),
            Node::Sequence(items) => self.check_items(items.as_slice()),
            Node::Range { from, to } => {
                let last = self.check_ends(from, to)?;
                self.add(Guess::Sequence(last))
            }
            Node::StridedRange { from, to, stride } => self.check_strided(from, to, stride),
            Node::Let { bindings, body } => self.check_let(bindings.as_slice(), body),
            Node::Each { body, bindings } => self.check_unfiltered(body, bindings.as_slice()),
            Node::FilteredEach {
                body,
                bindings,
                filter,
            } => self.check_filtered(body, bindings.as_slice(), filter),
            _ => Ok(self.leaf(&exp.node)?),
        }
    }

    /// The first call whose type is open.
    pub fn first_open(&mut self) -> Result<Option<Typed>, Shortage> {
        self.guesses.search();
        for call in &self.calls {
            if self.guesses.has_part(call.ty, Sought::Open)? {
                return Ok(Some(*call));
            }
        }
        Ok(None)
    }

    // The place of the type of an expression without parts.
    fn leaf(&mut self, node: &'e Node) -> Result<usize, Shortage> {
        match node {
            Node::Number(_) => self.guesses.add(Guess::Int),
            Node::Truth(_) => self.guesses.add(Guess::Bool),
            Node::Character(_) => self.guesses.add(Guess::Char),
            Node::Text(_) => {
                let item = self.guesses.add(Guess::Char)?;
                self.guesses.add(Guess::Sequence(item))
            }
            Node::Variable(name) => self.variable(name.as_slice()),
            Node::Empty(written) => {
                let item = self.element(written)?;
                self.guesses.add(Guess::Sequence(item))
            }
            _ => self.guesses.open(),
        }
    }

    // The place of the type that the elements of an empty sequence have.
    fn element(&mut self, written: &'e TypeExp) -> Result<usize, Shortage> {
        let mut names = Names::new(self.alloc);
        self.written(written, &mut names)
    }

    #[cycle(walk)]
    fn check_two(&mut self, left: &'e Exp, right: &'e Exp) -> Result<(Typed, Typed), Halt> {
        let first = Typed::new(left.span, self.check(left)?);
        let second = Typed::new(right.span, self.check(right)?);
        Ok((first, second))
    }

    #[cycle(walk)]
    fn check_choice(&mut self, test: &'e Exp, yes: &'e Exp, no: &'e Exp) -> Result<usize, Halt> {
        self.check_as(test, Guess::Bool, Role::Test)?;
        let (first, second) = self.check_two(yes, no)?;
        self.same(Role::Otherwise, first, second)
    }

    // The ends of a range, and the place of the type of the last one.
    #[cycle(walk)]
    fn check_ends(&mut self, from: &'e Exp, to: &'e Exp) -> Result<usize, Halt> {
        self.check_as(from, Guess::Int, Role::Bound)?;
        self.check_as(to, Guess::Int, Role::Bound)
    }

    #[cycle(walk)]
    fn check_strided(
        &mut self,
        from: &'e Exp,
        to: &'e Exp,
        stride: &'e Exp,
    ) -> Result<usize, Halt> {
        self.check_ends(from, to)?;
        let step = self.check_as(stride, Guess::Int, Role::Bound)?;
        self.add(Guess::Sequence(step))
    }

    #[cycle(walk)]
    fn check_let(&mut self, bindings: &'e [Binding], body: &'e Exp) -> Result<usize, Halt> {
        let before = self.names.len();
        self.check_bindings(bindings)?;
        let found = self.check(body)?;
        self.names.forget_behind(before)?;
        Ok(found)
    }

    #[cycle(walk)]
    fn check_unfiltered(&mut self, body: &'e Exp, bindings: &'e [Binding]) -> Result<usize, Halt> {
        let before = self.names.len();
        let item = self.check_each(body, bindings)?;
        self.names.forget_behind(before)?;
        self.add(Guess::Sequence(item))
    }

    #[cycle(walk)]
    fn check_filtered(
        &mut self,
        body: &'e Exp,
        bindings: &'e [Binding],
        filter: &'e Exp,
    ) -> Result<usize, Halt> {
        let before = self.names.len();
        let item = self.check_each(body, bindings)?;
        self.check_as(filter, Guess::Bool, Role::Filter)?;
        self.names.forget_behind(before)?;
        self.add(Guess::Sequence(item))
    }

    // The place of the type of an expression, which has to be this one.
    #[cycle(walk)]
    fn check_as(&mut self, exp: &'e Exp, guess: Guess, role: Role) -> Result<usize, Halt> {
        let ty = self.check(exp)?;
        self.expect(guess, role, Typed::new(exp.span, ty))?;
        Ok(ty)
    }

    // The place of the type of the body of an apply-to-each.
    #[cycle(walk)]
    fn check_each(&mut self, body: &'e Exp, bindings: &'e [Binding]) -> Result<usize, Halt> {
        let first = self.check_binders(bindings)?;
        match &body.node {
            Node::Element => Ok(first),
            _ => self.check(body),
        }
    }

    // The elements of a sequence.
    #[cycle(walk)]
    fn check_items(&mut self, items: &'e [Exp]) -> Result<usize, Halt> {
        let mut first = None;
        for item in items {
            let found = Typed::new(item.span, self.check(item)?);
            match first {
                None => first = Some(found),
                Some(known) => {
                    self.same(Role::Element, known, found)?;
                }
            }
        }
        let item = match first {
            Some(known) => known.ty,
            None => self.guesses.open()?,
        };
        self.add(Guess::Sequence(item))
    }

    // The bindings of a `let`, each of which sees the names before it.
    #[cycle(walk)]
    fn check_bindings(&mut self, bindings: &'e [Binding]) -> Result<(), Halt> {
        for binding in bindings {
            let value = self.check(&binding.value)?;
            self.bind(&binding.pattern, value)?;
        }
        Ok(())
    }

    // The bindings of an apply-to-each, and the place of the type of the first one's elements.
    #[cycle(walk)]
    fn check_binders(&mut self, bindings: &'e [Binding]) -> Result<usize, Halt> {
        let mut drawn = Vec::new(self.alloc);
        self.check_drawn(bindings, &mut drawn)?;
        self.bind_drawn(bindings, drawn.as_slice())
    }

    // Notes the places of the types of the elements that the bindings of an apply-to-each are of.
    #[cycle(walk)]
    fn check_drawn(&mut self, bindings: &'e [Binding], drawn: &mut Vec<usize>) -> Result<(), Halt> {
        for binding in bindings {
            let value = Typed::new(binding.value.span, self.check(&binding.value)?);
            drawn.push(self.item_of(value)?)?;
        }
        Ok(())
    }

    // Binds the patterns of an apply-to-each to elements of the types at these places; gives the first of these.
    fn bind_drawn(&mut self, bindings: &'e [Binding], drawn: &[usize]) -> Result<usize, Halt> {
        for (binding, item) in bindings.iter().zip(drawn.iter()) {
            self.bind(&binding.pattern, *item)?;
        }
        match drawn.first() {
            Some(place) => Ok(*place),
            None => Ok(self.guesses.open()?),
        }
    }

    /// The place of one more type.
    pub(crate) fn add(&mut self, guess: Guess) -> Result<usize, Halt> {
        Ok(self.guesses.add(guess)?)
    }

    /// The tag of the datatype with a name, and what a record of it holds.
    pub(crate) fn datatype(&self, name: &[u8]) -> Option<(u64, &'e Ty)> {
        let context = self.context;
        match context.get(name) {
            Some((Top::Datatype(tag, content), _)) => Some((*tag, content)),
            _ => None,
        }
    }

    // The place of the type of a variable.
    fn variable(&mut self, name: &'e [u8]) -> Result<usize, Shortage> {
        if let Some(place) = self.names.place_of(name) {
            return Ok(place);
        }
        let context = self.context;
        match context.get(name) {
            Some((Top::Variable(ty), _)) => self.guesses.copy(&ty.whole(), &[]),
            _ => self.guesses.open(),
        }
    }

    // The place of the type of the elements of what a pattern is in.
    fn item_of(&mut self, value: Typed) -> Result<usize, Halt> {
        if let Guess::Sequence(item) = self.guesses.guess(value.ty) {
            return Ok(item);
        }
        let item = self.guesses.open()?;
        self.expect(Guess::Sequence(item), Role::Drawn, value)?;
        Ok(item)
    }

    /// A part has to be of this type.
    pub(crate) fn expect(&mut self, guess: Guess, role: Role, found: Typed) -> Result<(), Halt> {
        let wanted = self.guesses.add(guess)?;
        self.join(role, found, wanted)
    }

    /// Two parts have to be of one type, which is given.
    pub(crate) fn same(&mut self, role: Role, first: Typed, second: Typed) -> Result<usize, Halt> {
        self.join_beside(role, second, Some(first), first.ty)?;
        Ok(first.ty)
    }

    /// A part has to be of the type at a place.
    pub(crate) fn join(&mut self, role: Role, found: Typed, wanted: usize) -> Result<(), Halt> {
        self.join_beside(role, found, None, wanted)
    }

    /// A part has to be of the type at a place, which it has to be because of a second part.
    pub(crate) fn join_beside(
        &mut self,
        role: Role,
        found: Typed,
        second: Option<Typed>,
        wanted: usize,
    ) -> Result<(), Halt> {
        if self.guesses.join(found.ty, wanted)? {
            return Ok(());
        }
        Err(Halt::Found(Clash {
            role,
            found,
            second,
            wanted,
        }))
    }
}
