// Sequences that are put together in a builder. What fills one has it lent, so that it is dropped at one place alone
// where memory is short.
ghost use Rattle.std.specs.Prelude.{◌≡◌, ◌++◌, ◌∷◌, List, [], IfOk, OnOk};
ghost use Rattle.nesl_values.specs.Tree.{ValueTree, sequence};
ghost use Rattle.nesl_values.specs.View.{tree_of, item_trees};
ghost use Rattle.nesl_values_builder.specs.Elements.{elements_of};

use nesl_seqs_base::copies::extend;
use nesl_values::{Items, Value};
use nesl_values_builder::SequenceBuilder;
use std::alloc::{AllocError, Allocator};

/// The sequence of the elements that came in, where all of them did.
pub fn finished<A: Allocator + Copy>(
    builder: SequenceBuilder<A>,
    outcome: Result<(), AllocError>,
) -> Result<Value<A>, AllocError>
    ensures { (ts : List ValueTree) → OnOk outcome (elements_of builder ≡ ts)
        → IfOk result (λ v. tree_of v ≡ sequence ts) }
{
    match outcome {
        Ok(()) => builder.finish(),
        Err(error) => {
            drop(builder);
            Err(error)
        }
    }
}

/// The sequence of the items of the one and then of the other.
pub fn joined_copy<A: Allocator + Copy>(
    alloc: A,
    one: Items<'_, A>,
    other: Items<'_, A>,
) -> Result<Value<A>, AllocError>
    ensures { IfOk result (λ v. tree_of v
        ≡ sequence (item_trees one.entry ++ item_trees other.entry)) }
{
    let room = one.len().saturating_add(other.len());
    let mut builder = SequenceBuilder::with_room(alloc, room);
    let outcome = extend_by_both(&mut builder, one, other);
    finished(builder, outcome)
}

fn extend_by_both<A: Allocator + Copy>(
    builder: &mut SequenceBuilder<A>,
    one: Items<'_, A>,
    other: Items<'_, A>,
) -> Result<(), AllocError>
    ensures { OnOk result (elements_of builder.new
        ≡ elements_of builder.old ++ (item_trees one.entry ++ item_trees other.entry)) }
{
    extend(builder, one)?;
    extend(builder, other)
}

/// The sequence of these two.
pub fn sequence_of_two<A: Allocator + Copy>(
    alloc: A,
    one: Value<A>,
    other: Value<A>,
) -> Result<Value<A>, AllocError>
    ensures { IfOk result (λ v. tree_of v ≡ sequence (tree_of one ∷ tree_of other ∷ [])) }
{
    let mut builder = SequenceBuilder::with_room(alloc, 2);
    let outcome = push_both(&mut builder, one, other);
    finished(builder, outcome)
}

fn push_both<A: Allocator + Copy>(
    builder: &mut SequenceBuilder<A>,
    one: Value<A>,
    other: Value<A>,
) -> Result<(), AllocError>
    ensures { OnOk result (elements_of builder.new
        ≡ elements_of builder.old ++ tree_of one ∷ tree_of other ∷ []) }
{
    builder.push(one)?;
    builder.push(other)
}
