// Whether code is plain.

use nesl_builtins::Builtin;
use nesl_eval_code::Code;
use nesl_eval_column_results::block::Block;
use nesl_eval_column_results::reach::HEIGHT;
use nesl_eval_nodes::held::{Held, Tops};
use nesl_seqs_base::seq_fn::SeqFn;
use std::alloc::Allocator;

/// How many nodes of called functions are looked at, in all.
const MOST: u32 = 100;

/// Whether code is made of constants, names, pairs, functions of scalars, elements and lengths, and `let`s, choices
/// and calls of functions with a plain body. What a name of a value means is not looked at. Nothing is said of the
/// answer, since only time rests on it: code that has no columns has none whatever is answered here.
pub fn is_plain<'x, A: Allocator + Copy, T: Tops<A>>(
    block: &'x Block<'x, A, T>,
    code: &Code,
    levels: u32,
) -> bool {
    let mut left = MOST;
    is_plain_part(block, code, Some(0), levels.min(HEIGHT), &mut left)
}

// Whether a part is plain. The row is `row` frames up; the body of a function sees no row. Of such bodies `left`
// more nodes may be looked at.
#[cycle(plainness)]
fn is_plain_part<'x, A: Allocator + Copy, T: Tops<A>>(
    block: &'x Block<'x, A, T>,
    code: &Code,
    row: Option<usize>,
    levels: u32,
    left: &mut u32,
) -> bool {
    if levels == 0 || !counted(row, left) {
        return false;
    }
    let below = levels - 1;
    match code {
        Code::Number { .. } => true,
        Code::Truth { .. } => true,
        Code::Character { .. } => true,
        Code::Local { up, steps, .. } => row != Some(*up) || steps.is_empty(),
        Code::Top { .. } => true,
        Code::Pair {
            left: one,
            right,
            ..
        } => is_plain_part(block, one, row, below, left)
            && is_plain_part(block, right, row, below, left),
        Code::Apply {
            function,
            argument,
            ..
        } => has_columns(*function, SeqFn::Length)
            && is_plain_part(block, argument, row, below, left),
        Code::ApplyTwo {
            function,
            left: one,
            right,
            ..
        } => has_columns(*function, SeqFn::ElementAt)
            && is_plain_part(block, one, row, below, left)
            && is_plain_part(block, right, row, below, left),
        _ => is_plain_form(block, code, row, below, left),
    }
}

// Whether a call, a `let` or a choice is plain, whose parts have `levels` levels.
#[cycle(plainness)]
fn is_plain_form<'x, A: Allocator + Copy, T: Tops<A>>(
    block: &'x Block<'x, A, T>,
    code: &Code,
    row: Option<usize>,
    levels: u32,
    left: &mut u32,
) -> bool {
    match code {
        Code::Call {
            place,
            argument,
            ..
        } => is_plain_part(block, argument, row, levels, left)
            && is_plain_function(block, *place, levels, left),
        Code::Let { bindings, body, .. } => {
            let inner = one_up(row);
            are_plain(block, bindings, inner, levels, left)
                && is_plain_part(block, body, inner, levels, left)
        }
        Code::Choice { test, yes, no, .. } => {
            is_plain_part(block, test, row, levels, left)
                && is_plain_part(block, yes, row, levels, left)
                && is_plain_part(block, no, row, levels, left)
        }
        _ => false,
    }
}

// Whether one more node may be looked at. Those of the code itself are not counted.
fn counted(row: Option<usize>, left: &mut u32) -> bool {
    if row.is_some() {
        return true;
    }
    match left.checked_sub(1) {
        Some(rest) => {
            *left = rest;
            true
        }
        None => false,
    }
}

// Where the row is, seen from one frame further in.
fn one_up(row: Option<usize>) -> Option<usize> {
    match row {
        Some(up) => up.checked_add(1),
        None => None,
    }
}

// Whether a function is one of scalars, or that function of sequences.
fn has_columns(function: Builtin, one: SeqFn) -> bool {
    match function {
        Builtin::OfOne(_) => true,
        Builtin::OfTwo(_) => true,
        Builtin::OfSequences(function) => function == one,
    }
}

// Whether a function of the top level has a plain body.
#[cycle(plainness)]
fn is_plain_function<'x, A: Allocator + Copy, T: Tops<A>>(
    block: &'x Block<'x, A, T>,
    place: usize,
    levels: u32,
    left: &mut u32,
) -> bool {
    match block.tops.held(place) {
        Ok(Held::Function(body)) => is_plain_part(block, body, None, levels, left),
        _ => false,
    }
}

#[cycle(plainness)]
fn are_plain<'x, A: Allocator + Copy, T: Tops<A>>(
    block: &'x Block<'x, A, T>,
    codes: &[Code],
    row: Option<usize>,
    levels: u32,
    left: &mut u32,
) -> bool {
    for code in codes {
        if !is_plain_part(block, code, row, levels, left) {
            return false;
        }
    }
    true
}
