//! What evaluation sees of the top level.
ghost use Rattle.std.specs.Prelude.{◌≡◌, ⊤, IfOk, option_and_then};
ghost use Rattle.nesl_builtins.specs.Named.{look_up};
ghost use Rattle.nesl_eval_code.specs.Run.{slot_at};

use nesl_eval_code::Code;
use nesl_values::Value;
use std::alloc::{AllocError, Allocator};

/// What is at a place of the top level.
#[derive_where(Copy)]
pub enum Held<'a, A: Allocator> {
    Variable(&'a Value<A>),
    /// A function's body.
    Function(&'a Code),
    /// A datatype's tag.
    Datatype(u64),
    Nothing,
}

impl<A: Allocator> Clone for Held<'_, A> {
    ghost is_clone = { λ one other. other ≡ one };

    ghost is_infallible = { λ _. ⊤ };

    fn clone(&self) -> Result<Self, AllocError> {
        Ok(*self)
    }
}

/// Where an evaluation finds the top level.
///
/// For the allocator of the bindings themselves values are lent; for another heap they were copied there, each
/// once a line, and `Err` is for a copy for which there was no room.
pub trait Tops<A: Allocator> {
    ghost use Rattle.nesl_eval_code.specs.Run.{Table};

    /// The names, and what each is.
    ghost table: { Self → Table };

    ghost use Rattle.nesl_eval_nodes.specs.Holds.{HoldsSlot};

    fn held(&self, place: usize) -> Result<Held<'_, A>, AllocError>
        ensures { IfOk result (HoldsSlot (table self.now) place) };

    /// The place of a name, if it has one.
    fn place_of(&self, name: &[u8]) -> Option<usize>
        ensures { option_and_then (slot_at (table self.now)) result ≡ look_up (table self.now) name.now };
}
