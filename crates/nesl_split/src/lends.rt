//! The top level, with copies of short values for one thread.
ghost use Rattle.std.specs.Prelude.{◌≡◌, IfSome, OnOk, IfOk, Some, slice_get};
ghost use Rattle.nesl_values.specs.View.{tree_of};
ghost use Rattle.nesl_eval.specs.Copied.{AreCopies, copies-prop, tree_at};

use crate::short::{Allowance, copy_if_short};
use nesl_eval_nodes::held::{Held, Tops};
use nesl_values::Value;
use std::alloc::{AllocError, Global};

/// A top level of which a thread may have values of its own.
pub(crate) trait Lends: Tops<Global> + Drop {
    /// The same top level, with copies of the short variables at the wanted places.
    fn lend(&self, wanted: &[bool], alloc: Global) -> Result<Self, AllocError>
        ensures { IfOk result (λ lent. Self.table lent ≡ Self.table self.now) };
}

/// A top level, and copies of variables. Threads that share a variable count its owners at one place, and wait for each
/// other there. A thread that has a copy counts the owners of its copy.
///
/// This type is for evaluation in halves alone. The machine's steps are compiled once for it and once for evaluation in
/// order. If both shared a type, the steps would be inlined in neither.
#[derive(Drop)]
pub(crate) struct Lent<'a, T: Tops<Global>> {
    pub tops: &'a T,
    /// By place.
    pub copies: Vec<Option<Value<Global>>>,
    ghost copied: { AreCopies (T.table tops.now) copies.items } by { copies-prop (T.table tops.now) copies.items },
}

impl<T: Tops<Global>> Tops<Global> for Lent<'_, T> {
    ghost table = { λ l. T.table l.tops.now };

    #[tactic(auto, using(nesl_eval::proofs::Copying::copy_stands))]
    fn held(&self, place: usize) -> Result<Held<'_, Global>, AllocError> {
        match self.tops.held(place)? {
            Held::Variable(value) => match copy_at(&self.copies, place) {
                Some(copy) => Ok(Held::Variable(copy)),
                None => Ok(Held::Variable(value)),
            },
            Held::Function(code) => Ok(Held::Function(code)),
            Held::Datatype(tag) => Ok(Held::Datatype(tag)),
            Held::Nothing => Ok(Held::Nothing),
        }
    }

    fn place_of(&self, name: &[u8]) -> Option<usize> {
        self.tops.place_of(name)
    }
}

impl<T: Tops<Global>> Lends for Lent<'_, T> {
    fn lend(&self, wanted: &[bool], alloc: Global) -> Result<Self, AllocError> {
        let copies = copies_of(self.tops, wanted, alloc)?;
        Ok(Lent {
            tops: self.tops,
            copies,
        })
    }
}

// Returns the copy at a place, if there is one.
#[inline]
fn copy_at(copies: &[Option<Value<Global>>], place: usize) -> Option<&Value<Global>>
    ensures { IfSome result (λ v. slice_get copies.now place ≡ Some (Some v.now)) }
{
    match copies.get(place) {
        Some(copy) => copy.as_ref(),
        None => None,
    }
}

// Copies the short variables at the wanted places.
fn copies_of<T: Tops<Global>>(
    tops: &T,
    wanted: &[bool],
    alloc: Global,
) -> Result<Vec<Option<Value<Global>>>, AllocError>
    ensures { IfOk result (λ copies. AreCopies (T.table tops.now) copies.items) }
{
    let mut copies = Vec::new(alloc);
    let mut allowance = Allowance::new();
    for is_wanted in wanted {
        push_copy(&mut copies, tops, *is_wanted, &mut allowance, alloc)?;
    }
    Ok(copies)
}

// Adds the copy for the next place, if it is wanted.
fn push_copy<T: Tops<Global>>(
    copies: &mut Vec<Option<Value<Global>>>,
    tops: &T,
    is_wanted: bool,
    allowance: &mut Allowance,
    alloc: Global,
) -> Result<(), AllocError>
    requires { AreCopies (T.table tops.now) copies.old.items }
    ensures { OnOk result (AreCopies (T.table tops.now) copies.new.items) }
{
    let copy = if is_wanted {
        copy_of_variable(tops, copies.len(), allowance, alloc)
    } else {
        None
    };
    copies.push(copy)?;
    Ok(())
}

// Copies the variable at a place, if there is one and it is short.
fn copy_of_variable<T: Tops<Global>>(
    tops: &T,
    place: usize,
    allowance: &mut Allowance,
    alloc: Global,
) -> Option<Value<Global>>
    ensures { IfSome result (λ v. tree_of v ≡ tree_at (T.table tops.now) place) }
{
    match tops.held(place) {
        Ok(Held::Variable(value)) => copy_if_short(value, allowance, alloc),
        _ => None,
    }
}
