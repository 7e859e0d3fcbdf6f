// What a builder has collected so far.
ghost use Rattle.std.specs.Prelude.{◌≡◌, IfOk, IfErr, map};
ghost use Rattle.nesl_values.specs.Tree.{int, boolean, character, sequence};
ghost use Rattle.nesl_values.specs.View.{tree_of};
ghost use Rattle.nesl_values_builder.specs.Elements.{run_trees};

use crate::leaf::Leaf;
use nesl_values::Value;
use std::alloc::{AllocError, Allocator};

/// Elements in order, packed as long as they are leaves of one kind.
#[derive(Drop)]
pub enum Run<A: Allocator> {
    Empty,
    Ints(Vec<i64, A>),
    Bools(Vec<bool, A>),
    Chars(Vec<u8, A>),
    Values(Vec<Value<A>, A>),
}

impl<A: Allocator + Copy> Run<A> {
    // The sequence of the elements.
    pub fn into_sequence(self, alloc: A) -> Result<Value<A>, AllocError>
        ensures { IfOk result (λ v. tree_of v ≡ sequence (run_trees self)) }
    {
        match self {
            Run::Empty => Value::empty(alloc),
            Run::Ints(leaves) => Value::ints(alloc, leaves),
            Run::Bools(leaves) => Value::bools(alloc, leaves),
            Run::Chars(leaves) => Value::chars(alloc, leaves),
            Run::Values(values) => Value::sequence(alloc, values),
        }
    }

    // The numbers, where the elements are numbers only; else the elements as they were.
    pub fn into_ints(self, alloc: A) -> Result<Vec<i64, A>, Run<A>>
        ensures ok { IfOk result (λ v. map int v.items ≡ run_trees self) }
        ensures err { IfErr result (λ other. other ≡ self) }
    {
        match self {
            Run::Empty => Ok(Vec::new(alloc)),
            Run::Ints(ints) => Ok(ints),
            other => Err(other),
        }
    }

    pub fn into_bools(self, alloc: A) -> Result<Vec<bool, A>, Run<A>>
        ensures ok { IfOk result (λ v. map boolean v.items ≡ run_trees self) }
        ensures err { IfErr result (λ other. other ≡ self) }
    {
        match self {
            Run::Empty => Ok(Vec::new(alloc)),
            Run::Bools(bools) => Ok(bools),
            other => Err(other),
        }
    }

    pub fn into_chars(self, alloc: A) -> Result<Vec<u8, A>, Run<A>>
        ensures ok { IfOk result (λ v. map character v.items ≡ run_trees self) }
        ensures err { IfErr result (λ other. other ≡ self) }
    {
        match self {
            Run::Empty => Ok(Vec::new(alloc)),
            Run::Chars(chars) => Ok(chars),
            other => Err(other),
        }
    }

    // The elements as values of their own, with room for that many in all. Where memory is short,
    // the elements as they were.
    pub fn into_values(self, alloc: A, room: usize) -> Result<Vec<Value<A>, A>, Run<A>>
        ensures ok { IfOk result (λ v. map tree_of v.items ≡ run_trees self) }
        ensures err { IfErr result (λ other. other ≡ self) }
    {
        match self {
            Run::Empty => Ok(Vec::new(alloc)),
            Run::Ints(ints) => match values_of(&ints, alloc, room) {
                Ok(values) => Ok(values),
                Err(_) => Err(Run::Ints(ints)),
            },
            Run::Bools(bools) => match values_of(&bools, alloc, room) {
                Ok(values) => Ok(values),
                Err(_) => Err(Run::Bools(bools)),
            },
            Run::Chars(chars) => match values_of(&chars, alloc, room) {
                Ok(values) => Ok(values),
                Err(_) => Err(Run::Chars(chars)),
            },
            Run::Values(values) => Ok(values),
        }
    }
}

fn values_of<T: Leaf, A: Allocator + Copy>(
    leaves: &Vec<T, A>,
    alloc: A,
    room: usize,
) -> Result<Vec<Value<A>, A>, AllocError>
    ensures { IfOk result (λ v. map tree_of v.items ≡ map T.leaf leaves.now.items) }
{
    let mut values = Vec::with_capacity(alloc, leaves.len().max(room))?;
    for leaf in leaves {
        values.push(leaf.into_value())?;
    }
    Ok(values)
}
