//! What local names mean at the turns of a block.
ghost use Rattle.std.specs.Prelude.{◌≡◌, ◌<◌, ⊤, ℕ, Some};
ghost use Rattle.nesl_eval_code.specs.Frames.{Frames};
ghost use Rattle.nesl_eval_column_results.specs.Blocks.{IsWithin};
ghost use Rattle.nesl_eval_column_results.specs.Frames.{frames_in};

use crate::block::Block;
use crate::columns::Columns;
use std::alloc::{AllocError, Allocator};

/// What local names mean, the newest frame first, at all turns of a block side by side.
#[derive_where(Copy)]
pub enum Scopes<'a, A: Allocator> {
    /// The rows of the apply-to-each at the places of the block.
    Rows,
    /// The bindings of a `let` so far, each at all turns.
    Let(&'a [Columns<A>], &'a Scopes<'a, A>),
    /// The argument of a function that is called, which its body sees alone, at the turns that the call has.
    Call(&'a Columns<A>, &'a Scopes<'a, A>),
    /// What names mean at some of the turns alone, in this order.
    Turns(&'a [usize], &'a Scopes<'a, A>),
}

impl<A: Allocator> Clone for Scopes<'_, A> {
    ghost is_clone = { λ one other. other ≡ one };

    ghost is_infallible = { λ _. ⊤ };

    fn clone(&self) -> Result<Self, AllocError> {
        Ok(*self)
    }
}

/// How many turns there are at the most.
pub fn count<A: Allocator, T>(block: &Block<'_, A, T>, scopes: &Scopes<'_, A>) -> usize
    requires { IsWithin block.now }
    ensures { (k : ℕ) (fs : Frames) → frames_in block.now scopes.now k ≡ Some fs → k < result }
{
    match scopes {
        Scopes::Rows => block.to - block.from,
        Scopes::Let(_, rest) => count(block, *rest),
        Scopes::Call(_, rest) => count(block, *rest),
        Scopes::Turns(turns, _) => turns.len(),
    }
}
