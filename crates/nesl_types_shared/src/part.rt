//! A part of a type.

use crate::parts::Parts;
use std::marker::Model;

/// A part of a type, borrowed: its place among the type's parts.
#[derive(Drop)]
pub struct Part<'a> {
    parts: Parts<'a>,
    place: usize,
}

impl<'a> Model for Part<'a> {
    ghost use Rattle.std.specs.Prelude.{◌<◌, length};
    ghost use Rattle.nesl_types_shared.specs.Term.{Term};
    ghost use Rattle.nesl_types_shared.specs.Codes.{term_code};
    ghost use Rattle.nesl_types_shared.specs.Types.{type_at};

    ghost Value = { Term };

    ghost coded = { term_code };

    ghost view = { λ p. type_at p.parts p.place };

    ghost invariant = { λ p. p.place < length p.parts };
}

ghost use Rattle.std.specs.Prelude.{◌≡◌, ◌<◌, All, length, IsTrue, IfOk, OnOk, fold};
ghost use Rattle.nesl_types_shared.specs.Substitution.{substitute};
ghost use Rattle.nesl_types_shared.specs.Numbering.{variables, with_number};
ghost use Rattle.nesl_types_shared.specs.Types.{type_at, Extends};
ghost use Rattle.nesl_types_shared.specs.Renames.{replacement, HaveVariablesOf};
ghost use Rattle.nesl_types_shared.specs.Kinds.{kind_type};

use crate::bank::Bank;
use crate::renaming::{is_renamed_part, rename_part};
use crate::shape::Shape;
use crate::visiting::note_part_variables;
use indexmap::IndexSet;
use std::alloc::{AllocError, Global};

/// What a type is, and its parts.
#[derive(Drop)]
pub enum Kind<'a> {
    Int,
    Bool,
    Char,
    /// A type variable, by its number.
    Var(u64),
    /// A datatype, by its tag: its number in order of definition from 0.
    Named(u64),
    /// Sequences of a type.
    SeqOf(Part<'a>),
    /// Pairs of two types.
    Both(Part<'a>, Part<'a>),
}

impl<'a> Part<'a> {
    /// The type at a place.
    pub fn of(parts: Parts<'a>, place: usize) -> Part<'a>
        requires { place < length parts }
        ensures { result ≡ type_at parts.entry place }
    {
        Part { parts, place }
    }

    /// This part, borrowed once more. Copies nothing.
    pub fn again(&self) -> Part<'a>
        ensures { result ≡ self.now }
    {
        Part::of(self.parts.again(), self.place)
    }

    /// The types among which it is, and its place there. Copies nothing.
    pub fn place(&self) -> (Parts<'a>, usize)
        ensures within { result.1 < length result.0 }
        ensures here { type_at result.0 result.1 ≡ self.now }
    {
        (self.parts.again(), self.place)
    }

    /// What it is, and its parts. Copies nothing.
    pub fn kind(&self) -> Kind<'a>
        ensures { kind_type result ≡ self.now }
    {
        match self.parts.shape(self.place) {
            Shape::Int => Kind::Int,
            Shape::Bool => Kind::Bool,
            Shape::Char => Kind::Char,
            Shape::Var(variable) => Kind::Var(variable),
            Shape::Named(tag) => Kind::Named(tag),
            Shape::SeqOf(item) => Kind::SeqOf(Part::of(self.parts.again(), item)),
            Shape::Both(first, second) => {
                let left = Part::of(self.parts.again(), first);
                Kind::Both(left, Part::of(self.parts.again(), second))
            }
        }
    }

    /// Notes its variables that aren't noted yet, in the order in which they first occur.
    pub fn note_variables(&self, alloc: Global, seen: &mut IndexSet<u64>) -> Result<(), AllocError>
        ensures { OnOk result (seen.new.keys ≡ fold with_number seen.old.keys (variables self.now)) }
    {
        note_part_variables(alloc, &self.parts, self.place, seen)
    }

    /// Puts it into a bank, with the type at place `of[v]` in place of each variable v, and gives its place there. A
    /// variable past the end of `of` stays.
    pub fn put(&self, alloc: Global, to: &mut Bank, of: &[usize]) -> Result<usize, AllocError>
        requires { All (λ p. p < length to.old) of.now }
        ensures extends { Extends to.old to.new }
        ensures within { IfOk result (λ p. p < length to.new) }
        ensures here { IfOk result (λ p. type_at to.new p ≡ substitute (replacement to.old of.now) self.now) }
        ensures below { OnOk result (HaveVariablesOf to.old to.new (substitute (replacement to.old of.now) self.now)) }
    {
        rename_part(alloc, &self.parts, self.place, to, of)
    }

    /// Whether the type at a place of the bank is this one with the type at place `of[v]` in place of each variable v.
    /// A variable past the end of `of` stays.
    pub fn is_instance(
        &self,
        alloc: Global,
        bank: &Bank,
        place: usize,
        of: &[usize],
    ) -> Result<bool, AllocError>
        requires { All (λ p. p < length bank.now) of.now }
        ensures { IfOk result (λ holds. IsTrue holds
            → type_at bank.now place ≡ substitute (replacement bank.now of.now) self.now) }
    {
        is_renamed_part(alloc, &self.parts, self.place, bank, place, of)
    }
}
