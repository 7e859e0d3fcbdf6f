// The parts of an argument.
ghost use Rattle.std.specs.Prelude.{◌≡◌, ◌<◌, ◌^◌, IfSome, length, option_map};
ghost use Rattle.nesl_values.specs.Parts.{as_sequence};
ghost use Rattle.nesl_values.specs.View.{tree_of, item_trees};
ghost use Rattle.nesl_seqs_base.specs.Lent.{argument_tree};
ghost use Rattle.nesl_seqs_base.specs.Arguments.{sequence_and_int, two_sequences, tree_and_int, two_ints, three_ints};
ghost use Rattle.nesl_seqs_base.specs.Arguments.{sequence_item_place};

use crate::argument::Argument;
use nesl_scalars::Trap;
use nesl_values::{Items, Value};
use std::alloc::Allocator;

/// The fault of an argument of a wrong shape, of which the definitions say nothing.
pub const WRONG_SHAPE: Trap = Trap::Range;

/// The numbers of `[start:end:step]`.
#[derive(Clone, Copy)]
pub struct SteppedRange {
    pub start: i64,
    pub end: i64,
    pub step: i64,
}

/// The arguments of `rep`: the items, and what comes in place of one of them.
pub struct Replacement<'a, A: Allocator> {
    pub items: Items<'a, A>,
    pub item: &'a Value<A>,
    pub place: i64,
}

/// A sequence.
pub fn sequence<A: Allocator>(argument: Argument<'_, A>) -> Option<Items<'_, A>>
    ensures len { IfSome result (λ items. length (item_trees items) < 2 ^ 63) }
    ensures items { option_map item_trees result ≡ as_sequence (argument_tree argument.entry) }
{
    match argument {
        Argument::One(value) => elements(value),
        Argument::Two(_, _) | Argument::Three(_, _, _) => None,
    }
}

// The elements of a value, where it is a sequence.
fn elements<A: Allocator>(value: &Value<A>) -> Option<Items<'_, A>>
    ensures len { IfSome result (λ items. length (item_trees items) < 2 ^ 63) }
    ensures items { option_map item_trees result ≡ as_sequence (tree_of value.now) }
{
    value.sequence_len()?;
    Some(value.items())
}

/// A sequence and a number.
pub fn sequence_and_int<A: Allocator>(argument: Argument<'_, A>) -> Option<(Items<'_, A>, i64)>
    ensures len { IfSome result (λ p. length (item_trees p.0) < 2 ^ 63) }
    ensures parts { option_map (λ p. (item_trees p.0, p.1)) result
        ≡ sequence_and_int (argument_tree argument.entry) }
{
    let (first, second) = argument.as_pair()?;
    elements(first).zip(second.as_int())
}

/// Two sequences.
pub fn two_sequences<A: Allocator>(
    argument: Argument<'_, A>,
) -> Option<(Items<'_, A>, Items<'_, A>)>
    ensures len { IfSome result (λ p. length (item_trees p.0) < 2 ^ 63) }
    ensures parts { option_map (λ p. (item_trees p.0, item_trees p.1)) result
        ≡ two_sequences (argument_tree argument.entry) }
{
    let (first, second) = argument.as_pair()?;
    elements(first).zip(sequence(second))
}

/// Anything and a number.
pub fn tree_and_int<A: Allocator>(argument: Argument<'_, A>) -> Option<(&Value<A>, i64)>
    ensures { option_map (λ p. (tree_of p.0.now, p.1)) result
        ≡ tree_and_int (argument_tree argument.entry) }
{
    let (first, second) = argument.as_pair()?;
    let number = second.as_int()?;
    Some((first, number))
}

/// Two numbers.
pub fn two_ints<A: Allocator>(argument: Argument<'_, A>) -> Option<(i64, i64)>
    ensures { result ≡ two_ints (argument_tree argument.entry) }
{
    let (first, second) = argument.as_pair()?;
    first.as_int().zip(second.as_int())
}

/// Three numbers.
pub fn as_stepped_range<A: Allocator>(argument: Argument<'_, A>) -> Option<SteppedRange>
    ensures { option_map (λ r. (r.start, (r.end, r.step))) result
        ≡ three_ints (argument_tree argument.entry) }
{
    let (first, rest) = argument.as_pair()?;
    let start = first.as_int()?;
    let (end, step) = two_ints(rest)?;
    Some(SteppedRange { start, end, step })
}

/// A sequence, anything and a number.
pub fn as_replacement<A: Allocator>(argument: Argument<'_, A>) -> Option<Replacement<'_, A>>
    ensures { option_map (λ r. (item_trees r.items, (tree_of r.item.now, r.place))) result
        ≡ sequence_item_place (argument_tree argument.entry) }
{
    let (first, rest) = argument.as_pair()?;
    let items = elements(first)?;
    let (item, place) = tree_and_int(rest)?;
    Some(Replacement { items, item, place })
}
