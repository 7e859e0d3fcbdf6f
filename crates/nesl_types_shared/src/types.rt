//! Types.

use crate::shape::Shape;
use std::marker::Model;
use std::sync::Arc;

/// A type: the shapes of its parts, each after those that it is made of, no two of them equal, and its own last.
/// Copies share them.
pub struct Ty {
    shapes: Arc<Vec<Shape>>,
    /// How many nodes it has, or `None` where they are more than `u64::MAX`.
    count: Option<u64>,
}

// By hand, so that no crate above has to prove how the parts are dropped.
impl Drop for Ty {
    fn drop(self) {
        let Ty { shapes, count: _ } = self;
        drop(shapes);
    }
}

impl Model for Ty {
    ghost use Rattle.nesl_types_shared.specs.Term.{Term};
    ghost use Rattle.nesl_types_shared.specs.Codes.{term_code};
    ghost use Rattle.nesl_types_shared.specs.Types.{types};
    ghost use Rattle.nesl_types_shared.specs.Lists.{last_type, IsType};

    ghost Value = { Term };

    ghost coded = { term_code };

    ghost view = { λ t. last_type (types t.shapes.value.items) };

    ghost invariant = { λ t. IsType t.shapes.value.items t.count };
}

ghost use Rattle.std.specs.Prelude.{◌≡◌, ◌+◌, ◌<◌, ◌↔◌, All, length, IsTrue, IfOk, OnOk, MatchOption, fold};
ghost use Rattle.nesl_types_shared.specs.Term.{nodes, int, bool as boolean, char as character, variable, named, seq_of};
ghost use Rattle.nesl_types_shared.specs.Term.{pair_of};
ghost use Rattle.nesl_types_shared.specs.Substitution.{substitute};
ghost use Rattle.nesl_types_shared.specs.Numbering.{variables, with_number};
ghost use Rattle.nesl_types_shared.specs.Shapes.{IsShapeBelow, shape_type};
ghost use Rattle.nesl_types_shared.specs.Types.{type_at, types, size_of, Extends};
ghost use Rattle.nesl_types_shared.specs.Lists.{last_type, parts_of, IsType};
ghost use Rattle.nesl_types_shared.specs.Kinds.{kind_type};
ghost use Rattle.nesl_types_shared.specs.Renames.{replacement, HaveVariablesOf};

use crate::bank::Bank;
use crate::lists::{are_same, count, first_room, list_of_seq, list_parts, number_of, one_more};
use crate::part::{Kind, Part};
use crate::parts::Parts;
use indexmap::IndexSet;
use std::alloc::{AllocError, Global};

impl Ty {
    ghost use Rattle.std.specs.Prelude.{[]};

    // The type that a list means.
    fn of(alloc: Global, shapes: Vec<Shape>, count: Option<u64>) -> Result<Ty, AllocError>
        requires { IsType shapes.items count }
        ensures { IfOk result (λ t. t ≡ last_type (types shapes.items)) }
    {
        let shapes = Arc::new(alloc, shapes)?;
        Ok(Ty { shapes, count })
    }

    // The type of a shape without parts.
    fn leaf(alloc: Global, shape: Shape) -> Result<Ty, AllocError>
        requires { IsShapeBelow 0 shape }
        ensures { IfOk result (λ t. t ≡ shape_type (type_at []) shape) }
    {
        let shapes = Vec::from_slice(alloc, &[shape])?;
        Ty::of(alloc, shapes, Some(1))
    }

    /// The integers.
    pub fn int(alloc: Global) -> Result<Ty, AllocError>
        ensures { IfOk result (λ t. t ≡ int) }
    {
        Ty::leaf(alloc, Shape::Int)
    }

    /// The truth values.
    pub fn boolean(alloc: Global) -> Result<Ty, AllocError>
        ensures { IfOk result (λ t. t ≡ boolean) }
    {
        Ty::leaf(alloc, Shape::Bool)
    }

    /// The characters.
    pub fn character(alloc: Global) -> Result<Ty, AllocError>
        ensures { IfOk result (λ t. t ≡ character) }
    {
        Ty::leaf(alloc, Shape::Char)
    }

    /// A type variable, by its number.
    pub fn variable(alloc: Global, number: u64) -> Result<Ty, AllocError>
        ensures { IfOk result (λ t. t ≡ variable number) }
    {
        Ty::leaf(alloc, Shape::Var(number))
    }

    /// A datatype, by its tag: its number in order of definition from 0.
    pub fn named(alloc: Global, tag: u64) -> Result<Ty, AllocError>
        ensures { IfOk result (λ t. t ≡ named tag) }
    {
        Ty::leaf(alloc, Shape::Named(tag))
    }

    /// The sequences of a type. It costs as much as the type has parts: to nest many, put them into a bank, and read
    /// the last.
    pub fn seq_of(alloc: Global, item: &Ty) -> Result<Ty, AllocError>
        ensures { IfOk result (λ t. t ≡ seq_of item.now) }
    {
        let shapes = list_of_seq(alloc, item.shapes.as_slice())?;
        Ty::of(alloc, shapes, one_more(item.count))
    }

    /// The pairs of two types.
    pub fn both(alloc: Global, first: &Ty, second: &Ty) -> Result<Ty, AllocError>
        ensures { IfOk result (λ t. t ≡ pair_of first.now second.now) }
    {
        let mut bank = Bank::new(alloc);
        let first = first.copy_to(alloc, &mut bank)?;
        let second = second.copy_to(alloc, &mut bank)?;
        let place = bank.put(Shape::Both(first, second))?;
        Ty::read(alloc, &bank, place)
    }

    /// The type at a place of a bank.
    pub fn read(alloc: Global, bank: &Bank, place: usize) -> Result<Ty, AllocError>
        requires { place < length bank.now }
        ensures { IfOk result (λ t. t ≡ type_at bank.now place) }
    {
        let count = count(bank, place);
        let shapes = list_parts(alloc, &bank.parts(), place, first_room(count))?;
        Ty::of(alloc, shapes, count)
    }

    /// Its parts, of which it is the last one.
    pub fn parts(&self) -> Parts<'_>
        ensures some { 0 < length result }
        ensures last { last_type result ≡ self.now }
        ensures order { result ≡ parts_of self.now }
    {
        Parts::of(self.shapes.as_slice())
    }

    /// The whole type as a part of itself.
    pub fn whole(&self) -> Part<'_>
        ensures { result ≡ self.now }
    {
        let parts = self.parts();
        let last = parts.len() - 1;
        Part::of(parts, last)
    }

    /// What it is, and its parts. Copies nothing.
    pub fn kind(&self) -> Kind<'_>
        ensures { kind_type result ≡ self.now }
    {
        self.whole().kind()
    }

    /// One more owner of this type. Copies nothing: `AllocError` is for a count of owners that is full, at 2^63 - 1 of
    /// them.
    pub fn duplicate(&self, _alloc: Global) -> Result<Ty, AllocError>
        ensures { IfOk result (λ t. t ≡ self.now) }
    {
        let shapes = Arc::try_clone(&self.shapes)?;
        Ok(Ty {
            shapes,
            count: self.count,
        })
    }

    /// Whether both are the same type.
    pub fn same(&self, other: &Ty) -> bool
        ensures { IsTrue result ↔ (self.now ≡ other.now) }
    {
        are_same(self.shapes.as_slice(), other.shapes.as_slice())
    }

    /// How many nodes it has, at most `u64::MAX`.
    pub fn nodes(&self) -> u64
        ensures { result ≡ size_of self.now }
    {
        match self.count {
            Some(count) => count,
            None => u64::MAX,
        }
    }

    /// What is left of `room` after the nodes of the type, or `None` where they are more.
    pub fn room_left(&self, room: u64) -> Option<u64>
        ensures { MatchOption result (room < nodes self.now) (λ left. left + nodes self.now ≡ room) }
    {
        match self.count {
            Some(count) => room.checked_sub(count),
            None => None,
        }
    }

    /// Notes its variables that aren't noted yet, in the order in which they first occur.
    pub fn note_variables(&self, alloc: Global, seen: &mut IndexSet<u64>) -> Result<(), AllocError>
        ensures { OnOk result (seen.new.keys ≡ fold with_number seen.old.keys (variables self.now)) }
    {
        self.whole().note_variables(alloc, seen)
    }

    /// A number made of its parts: equal types have the same one, and others seldom. No reply depends on it.
    pub fn number(&self) -> u64 {
        number_of(self.shapes.as_slice())
    }

    /// Puts it into a bank, with the type at place `of[v]` in place of each variable v, and gives its place there. A
    /// variable past the end of `of` stays.
    pub fn put(&self, alloc: Global, to: &mut Bank, of: &[usize]) -> Result<usize, AllocError>
        requires { All (λ p. p < length to.old) of.now }
        ensures extends { Extends to.old to.new }
        ensures within { IfOk result (λ p. p < length to.new) }
        ensures here { IfOk result (λ p. type_at to.new p ≡ substitute (replacement to.old of.now) self.now) }
        ensures below { OnOk result (HaveVariablesOf to.old to.new (substitute (replacement to.old of.now) self.now)) }
    {
        self.whole().put(alloc, to, of)
    }

    // Puts it into a bank as it is.
    fn copy_to(&self, alloc: Global, to: &mut Bank) -> Result<usize, AllocError>
        ensures extends { Extends to.old to.new }
        ensures within { IfOk result (λ p. p < length to.new) }
        ensures here { IfOk result (λ p. type_at to.new p ≡ self.now) }
    {
        self.put(alloc, to, &[])
    }

    /// Whether the type at a place of the bank is this one with the type at place `of[v]` in place of each variable v.
    /// A variable past the end of `of` stays.
    pub fn is_instance(
        &self,
        alloc: Global,
        bank: &Bank,
        place: usize,
        of: &[usize],
    ) -> Result<bool, AllocError>
        requires { All (λ p. p < length bank.now) of.now }
        ensures { IfOk result (λ holds. IsTrue holds
            → type_at bank.now place ≡ substitute (replacement bank.now of.now) self.now) }
    {
        self.whole().is_instance(alloc, bank, place, of)
    }
}
