// Sequences that are made of copies of items.
ghost use Rattle.std.specs.Prelude.{◌≡◌, ◌+◌, ◌++◌, map, replicate, reverse, IfOk, OnOk};
ghost use Rattle.nesl_values.specs.Tree.{sequence};
ghost use Rattle.nesl_values.specs.View.{tree_of, item_trees};
ghost use Rattle.nesl_values_builder.specs.Elements.{elements_of};

use nesl_values::{Items, Value};
use nesl_values_builder::SequenceBuilder;
use std::alloc::{AllocError, Allocator};

/// The sequence of these items.
pub fn copy_of<A: Allocator + Copy>(alloc: A, items: Items<'_, A>) -> Result<Value<A>, AllocError>
    ensures { IfOk result (λ v. tree_of v ≡ sequence (item_trees items.entry)) }
{
    let mut builder = SequenceBuilder::with_room(alloc, items.len());
    extend(&mut builder, items)?;
    builder.finish()
}

/// Adds the items at the end, which stay where they are too.
pub fn extend<A: Allocator + Copy>(
    builder: &mut SequenceBuilder<A>,
    items: Items<'_, A>,
) -> Result<(), AllocError>
    ensures { OnOk result
        (elements_of builder.new ≡ elements_of builder.old ++ item_trees items.entry) }
{
    builder.extend_shared(items)
}

/// The sequence of these items from the last to the first.
pub fn reversed_copy<A: Allocator + Copy>(
    alloc: A,
    items: Items<'_, A>,
) -> Result<Value<A>, AllocError>
    ensures { IfOk result (λ v. tree_of v ≡ sequence (reverse (item_trees items.entry))) }
{
    match items {
        Items::Ints(ints) => Value::ints(alloc, reversed(alloc, ints)?),
        Items::Bools(bools) => Value::bools(alloc, reversed(alloc, bools)?),
        Items::Chars(chars) => Value::chars(alloc, reversed(alloc, chars)?),
        Items::Values(values) => Value::sequence(alloc, reversed_values(alloc, values)?),
    }
}

fn reversed<T: Copy, A: Allocator>(alloc: A, items: &[T]) -> Result<Vec<T, A>, AllocError>
    ensures { IfOk result (λ v. v.items ≡ reverse items.now) }
{
    let mut copies = Vec::from_slice(alloc, items)?;
    copies.reverse();
    Ok(copies)
}

fn reversed_values<A: Allocator + Copy>(
    alloc: A,
    values: &[Value<A>],
) -> Result<Vec<Value<A>, A>, AllocError>
    ensures { IfOk result (λ v. map tree_of v.items ≡ reverse (map tree_of values.now)) }
{
    let mut copies = Vec::with_capacity(alloc, values.len())?;
    for value in values {
        copies.push(value.share()?)?;
    }
    copies.reverse();
    Ok(copies)
}

/// The same item, `count` times.
pub fn repeated<T: Copy, A: Allocator>(
    alloc: A,
    item: T,
    count: usize,
) -> Result<Vec<T, A>, AllocError>
    ensures { IfOk result (λ v. v.items ≡ replicate count item) }
{
    let mut items = Vec::new(alloc);
    items.resize(count, item)?;
    Ok(items)
}
