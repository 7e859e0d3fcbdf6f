//! Functions of one argument at the values of all turns.
ghost use Rattle.std.specs.Prelude.{ℕ, IfSome};
ghost use Rattle.nesl_lex.specs.declared.token.Span.{Span};
ghost use Rattle.nesl_eval_column_results.specs.Columns.{value_at, Applies};

use crate::columns::{Columns, as_leaves, as_two_leaves, same_value};
use crate::outer::length_of;
use nesl_builtins::Builtin;
use nesl_eval_columns::{of_one, of_two};
use nesl_scalars::{Binary, Unary};
use nesl_seqs_base::seq_fn::SeqFn;
use std::alloc::Allocator;

/// A function at `count` turns, if it has a value without further cost at each.
pub fn applied<A: Allocator + Copy>(
    function: Builtin,
    values: Columns<A>,
    count: usize,
    alloc: A,
) -> Option<Columns<A>>
    ensures { (s : Span) → IfSome result (Applies function s count (value_at values)) }
{
    match function {
        Builtin::OfOne(function) => of_leaf(function, values, count, alloc),
        Builtin::OfTwo(function) => of_pair(function, values, count, alloc),
        Builtin::OfSequences(function) => of_sequence(function, values),
    }
}

// A function of one scalar, at `count` turns.
fn of_leaf<A: Allocator + Copy>(
    function: Unary,
    values: Columns<A>,
    count: usize,
    alloc: A,
) -> Option<Columns<A>>
    ensures { (s : Span) → IfSome result (Applies (Builtin.OfOne function) s count (value_at values)) }
{
    let column = as_leaves(values, count, alloc)?;
    Some(Columns::Leaves(of_one(function, &column, alloc)?))
}

// A function of two scalars, at `count` turns.
fn of_pair<A: Allocator + Copy>(
    function: Binary,
    values: Columns<A>,
    count: usize,
    alloc: A,
) -> Option<Columns<A>>
    ensures { (s : Span) → IfSome result (Applies (Builtin.OfTwo function) s count (value_at values)) }
{
    let (left, right) = as_two_leaves(values, count, alloc)?;
    Some(Columns::Leaves(of_two(function, &left, &right, alloc)?))
}

// The length of a sequence that is the same at all turns.
fn of_sequence<A: Allocator>(function: SeqFn, values: Columns<A>) -> Option<Columns<A>>
    ensures { (s : Span) (count : ℕ) → IfSome result
        (Applies (Builtin.OfSequences function) s count (value_at values)) }
{
    match function {
        SeqFn::Length => {
            let sequence = same_value(values)?;
            Some(Columns::Same(length_of(&sequence)?))
        }
        _ => None,
    }
}
