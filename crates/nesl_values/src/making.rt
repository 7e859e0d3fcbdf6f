// Values from their parts, and their parts from them.
ghost use Rattle.std.specs.Prelude.{◌≡◌, [], IfOk, option_map, map};
ghost use Rattle.nesl_values.specs.Tree.{int, boolean, character, sequence, pair, tagged};
ghost use Rattle.nesl_values.specs.Parts.{as_pair, as_tagged};
ghost use Rattle.nesl_values.specs.View.{tree_of, parts_tree};

use crate::node::{Node, Parts};
use crate::value::Value;
use std::alloc::{AllocError, Allocator};
use std::sync::Arc;

impl<A: Allocator> Value<A> {
    /// This value, with one more owner of what holds its parts. Copies nothing. `AllocError` is for
    /// a count of owners that is full, at 2^63 - 1 of them.
    pub fn share(&self) -> Result<Value<A>, AllocError>
        ensures { IfOk result (λ v. tree_of v ≡ tree_of self.now) }
    {
        match self {
            Value::Int(n) => Ok(Value::Int(*n)),
            Value::Bool(b) => Ok(Value::Bool(*b)),
            Value::Char(c) => Ok(Value::Char(*c)),
            Value::Shared(shared) => Ok(Value::Shared(Arc::try_clone(shared)?)),
        }
    }

    // The value that has these parts.
    pub(crate) fn of_parts(alloc: A, parts: Parts<A>) -> Result<Value<A>, AllocError>
        ensures { IfOk result (λ v. tree_of v ≡ parts_tree parts) }
    {
        match Node::of(parts) {
            Some(node) => Ok(Value::Shared(Arc::new(alloc, node)?)),
            None => Err(AllocError),
        }
    }

    /// The pair of the two.
    pub fn pair(alloc: A, left: Value<A>, right: Value<A>) -> Result<Value<A>, AllocError>
        ensures { IfOk result (λ v. tree_of v ≡ pair (tree_of left) (tree_of right)) }
    {
        Value::of_parts(alloc, Parts::Pair(left, right))
    }

    /// The value with that tag before it.
    pub fn tagged(alloc: A, tag: u64, inner: Value<A>) -> Result<Value<A>, AllocError>
        ensures { IfOk result (λ v. tree_of v ≡ tagged tag (tree_of inner)) }
    {
        Value::of_parts(alloc, Parts::Tagged(tag, inner))
    }

    /// The sequence of these values. Each stays a value of its own, also where all are leaves.
    pub fn sequence(alloc: A, items: Vec<Value<A>, A>) -> Result<Value<A>, AllocError>
        ensures { IfOk result (λ v. tree_of v ≡ sequence (map tree_of items.items)) }
    {
        Value::of_parts(alloc, Parts::Seq(items))
    }

    /// The sequence of these numbers, packed.
    pub fn ints(alloc: A, items: Vec<i64, A>) -> Result<Value<A>, AllocError>
        ensures { IfOk result (λ v. tree_of v ≡ sequence (map int items.items)) }
    {
        Value::of_parts(alloc, Parts::Ints(items))
    }

    /// The sequence of these truth values, packed.
    pub fn bools(alloc: A, items: Vec<bool, A>) -> Result<Value<A>, AllocError>
        ensures { IfOk result (λ v. tree_of v ≡ sequence (map boolean items.items)) }
    {
        Value::of_parts(alloc, Parts::Bools(items))
    }

    /// The sequence of these characters, packed.
    pub fn chars(alloc: A, items: Vec<u8, A>) -> Result<Value<A>, AllocError>
        ensures { IfOk result (λ v. tree_of v ≡ sequence (map character items.items)) }
    {
        Value::of_parts(alloc, Parts::Chars(items))
    }

    /// The parts of a pair, which keeps them where it has other owners.
    pub fn into_pair(self) -> Result<Option<(Value<A>, Value<A>)>, AllocError>
        ensures { IfOk result (λ o. option_map (λ p. (tree_of p.0, tree_of p.1)) o ≡ as_pair (tree_of self)) }
    {
        self.shared_pair()
    }

    // The parts of a pair, with one more owner each.
    fn shared_pair(&self) -> Result<Option<(Value<A>, Value<A>)>, AllocError>
        ensures { IfOk result (λ o. option_map (λ p. (tree_of p.0, tree_of p.1)) o ≡ as_pair (tree_of self.now)) }
    {
        match self.as_pair() {
            Some((left, right)) => Ok(Some((left.share()?, right.share()?))),
            None => Ok(None),
        }
    }

    /// The tag and the value that has it.
    pub fn into_tagged(self) -> Result<Option<(u64, Value<A>)>, AllocError>
        ensures { IfOk result (λ o. option_map (λ p. (p.0, tree_of p.1)) o ≡ as_tagged (tree_of self)) }
    {
        self.shared_inner()
    }

    // The tag and the value that has it, with one more owner.
    fn shared_inner(&self) -> Result<Option<(u64, Value<A>)>, AllocError>
        ensures { IfOk result (λ o. option_map (λ p. (p.0, tree_of p.1)) o ≡ as_tagged (tree_of self.now)) }
    {
        match self.as_tagged() {
            Some((tag, inner)) => Ok(Some((tag, inner.share()?))),
            None => Ok(None),
        }
    }
}

impl<A: Allocator + Copy> Value<A> {
    /// The sequence with no element.
    pub fn empty(alloc: A) -> Result<Value<A>, AllocError>
        ensures { IfOk result (λ v. tree_of v ≡ sequence []) }
    {
        Value::sequence(alloc, Vec::new(alloc))
    }
}
