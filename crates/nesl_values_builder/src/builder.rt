// Sequences that are built from their front to their end.
ghost use Rattle.std.specs.Prelude.{◌≡◌, List, [], ◌∷◌, ◌++◌, take, map, is_ok, if◌then◌else◌, IfOk, OnOk, OnErr};
ghost use Rattle.std.specs.Prelude.{vec_len};
ghost use Rattle.nesl_values.specs.Tree.{int, boolean, character, sequence};
ghost use Rattle.nesl_values.specs.View.{tree_of, element_tree, item_trees};
ghost use Rattle.nesl_values_builder.specs.Elements.{elements_of, run_trees};

use crate::leaf::Leaf;
use crate::run::Run;
use nesl_values::{Element, Items, Value};
use std::alloc::{AllocError, Allocator, Global};
use std::mem;

/// A sequence in the making.
///
/// As long as all of them are numbers, all truth values or all characters, they lie packed. The
/// first element of another kind turns them into values of their own.
pub struct SequenceBuilder<A: Allocator = Global> {
    run: Run<A>,
    room: usize,
    alloc: A,
}

// By hand, so that no crate above has to prove how the parts are dropped.
impl<A: Allocator> Drop for SequenceBuilder<A> {
    fn drop(self) {
        let SequenceBuilder {
            run,
            room: _,
            alloc,
        } = self;
        drop((run, alloc));
    }
}

impl<A: Allocator + Copy> SequenceBuilder<A> {
    /// No element yet. Takes no memory.
    pub fn new(alloc: A) -> Self
        ensures { elements_of result ≡ [] }
    {
        SequenceBuilder::with_room(alloc, 0)
    }

    /// No element yet. The first that comes takes room for that many.
    pub fn with_room(alloc: A, room: usize) -> Self
        ensures { elements_of result ≡ [] }
    {
        SequenceBuilder {
            run: Run::Empty,
            room,
            alloc,
        }
    }

    /// The sequence of the elements.
    pub fn finish(self) -> Result<Value<A>, AllocError>
        ensures { IfOk result (λ v. tree_of v ≡ sequence (elements_of self)) }
    {
        let SequenceBuilder {
            run,
            room: _,
            alloc,
        } = self;
        run.into_sequence(alloc)
    }

    /// Adds an element at the end.
    pub fn push(&mut self, item: Value<A>) -> Result<(), AllocError>
        ensures ok { OnOk result (elements_of self.new ≡ elements_of self.old ++ tree_of item ∷ []) }
        ensures err { OnErr result (elements_of self.new ≡ elements_of self.old) }
    {
        match &item {
            Value::Int(n) => self.push_int(*n),
            Value::Bool(b) => self.push_bool(*b),
            Value::Char(c) => self.push_char(*c),
            _ => self.push_value(item),
        }
    }

    /// Adds a copy of an element at the end.
    pub fn push_copy<B: Allocator>(&mut self, element: Element<'_, B>) -> Result<(), AllocError>
        ensures ok { OnOk result (elements_of self.new ≡ elements_of self.old ++ element_tree element.entry ∷ []) }
        ensures err { OnErr result (elements_of self.new ≡ elements_of self.old) }
    {
        match element {
            Element::Int(n) => self.push_int(n),
            Element::Bool(b) => self.push_bool(b),
            Element::Char(c) => self.push_char(c),
            Element::Node(value) => self.push(value.copy_into(self.alloc)?),
        }
    }

    /// Adds an element at the end, which stays where it is too.
    pub fn push_shared(&mut self, element: Element<'_, A>) -> Result<(), AllocError>
        ensures ok { OnOk result (elements_of self.new ≡ elements_of self.old ++ element_tree element.entry ∷ []) }
        ensures err { OnErr result (elements_of self.new ≡ elements_of self.old) }
    {
        match element {
            Element::Int(n) => self.push_int(n),
            Element::Bool(b) => self.push_bool(b),
            Element::Char(c) => self.push_char(c),
            Element::Node(value) => self.push(value.share()?),
        }
    }

    /// Adds a number at the end.
    pub fn push_int(&mut self, n: i64) -> Result<(), AllocError>
        ensures ok { OnOk result (elements_of self.new ≡ elements_of self.old ++ int n ∷ []) }
        ensures err { OnErr result (elements_of self.new ≡ elements_of self.old) }
    {
        let room = self.room;
        if let Run::Ints(ints) = &mut self.run {
            return push_with_room(ints, n, room);
        }
        match mem::replace(&mut self.run, Run::Empty).into_ints(self.alloc) {
            Ok(mut ints) => {
                let outcome = push_with_room(&mut ints, n, self.room);
                self.run = Run::Ints(ints);
                outcome
            }
            Err(other) => {
                self.run = other;
                self.push_value(Value::Int(n))
            }
        }
    }

    /// Adds a truth value at the end.
    pub fn push_bool(&mut self, b: bool) -> Result<(), AllocError>
        ensures ok { OnOk result (elements_of self.new ≡ elements_of self.old ++ boolean b ∷ []) }
        ensures err { OnErr result (elements_of self.new ≡ elements_of self.old) }
    {
        let room = self.room;
        if let Run::Bools(bools) = &mut self.run {
            return push_with_room(bools, b, room);
        }
        match mem::replace(&mut self.run, Run::Empty).into_bools(self.alloc) {
            Ok(mut bools) => {
                let outcome = push_with_room(&mut bools, b, self.room);
                self.run = Run::Bools(bools);
                outcome
            }
            Err(other) => {
                self.run = other;
                self.push_value(Value::Bool(b))
            }
        }
    }

    /// Adds a character at the end.
    pub fn push_char(&mut self, c: u8) -> Result<(), AllocError>
        ensures ok { OnOk result (elements_of self.new ≡ elements_of self.old ++ character c ∷ []) }
        ensures err { OnErr result (elements_of self.new ≡ elements_of self.old) }
    {
        let room = self.room;
        if let Run::Chars(chars) = &mut self.run {
            return push_with_room(chars, c, room);
        }
        match mem::replace(&mut self.run, Run::Empty).into_chars(self.alloc) {
            Ok(mut chars) => {
                let outcome = push_with_room(&mut chars, c, self.room);
                self.run = Run::Chars(chars);
                outcome
            }
            Err(other) => {
                self.run = other;
                self.push_value(Value::Char(c))
            }
        }
    }

    /// Adds copies of elements at the end. Where both sides are packed alike, this is one copy of memory.
    pub fn extend_copies<B: Allocator>(&mut self, more: Items<'_, B>) -> Result<(), AllocError>
        ensures ok { OnOk result (elements_of self.new ≡ elements_of self.old ++ item_trees more.entry) }
        ensures err { OnErr result (elements_of self.new ≡ elements_of self.old) }
    {
        match more {
            Items::Ints(ints) => self.extend_from_ints(ints),
            Items::Bools(bools) => self.extend_from_bools(bools),
            Items::Chars(chars) => self.extend_from_chars(chars),
            Items::Values(values) => self.extend_from_copies(values),
        }
    }

    /// Adds elements at the end, which stay where they are too. Leaves are copied.
    pub fn extend_shared(&mut self, more: Items<'_, A>) -> Result<(), AllocError>
        ensures ok { OnOk result (elements_of self.new ≡ elements_of self.old ++ item_trees more.entry) }
        ensures err { OnErr result (elements_of self.new ≡ elements_of self.old) }
    {
        match more {
            Items::Ints(ints) => self.extend_from_ints(ints),
            Items::Bools(bools) => self.extend_from_bools(bools),
            Items::Chars(chars) => self.extend_from_chars(chars),
            Items::Values(values) => self.extend_from_shares(values),
        }
    }

    /// Adds what another builder has at the end. Values of their own are moved, and none of them is looked at. Where
    /// there is no element yet, all of them are moved.
    pub fn append(&mut self, more: SequenceBuilder<A>) -> Result<(), AllocError>
        ensures ok { OnOk result (elements_of self.new ≡ elements_of self.old ++ elements_of more) }
        ensures err { OnErr result (elements_of self.new ≡ elements_of self.old) }
    {
        let SequenceBuilder {
            run,
            room: _,
            alloc: _,
        } = more;
        if let Run::Empty = self.run {
            self.run = run;
            return Ok(());
        }
        self.append_run(run)
    }

    // Adds the elements of a run at the end.
    fn append_run(&mut self, run: Run<A>) -> Result<(), AllocError>
        ensures ok { OnOk result (elements_of self.new ≡ elements_of self.old ++ run_trees run) }
        ensures err { OnErr result (elements_of self.new ≡ elements_of self.old) }
    {
        match run {
            Run::Empty => Ok(()),
            Run::Ints(ints) => self.extend_from_ints(&ints),
            Run::Bools(bools) => self.extend_from_bools(&bools),
            Run::Chars(chars) => self.extend_from_chars(&chars),
            Run::Values(values) => self.append_values(values),
        }
    }

    /// Adds numbers at the end.
    pub fn extend_from_ints(&mut self, more: &[i64]) -> Result<(), AllocError>
        ensures ok { OnOk result (elements_of self.new ≡ elements_of self.old ++ map int more.now) }
        ensures err { OnErr result (elements_of self.new ≡ elements_of self.old) }
    {
        match mem::replace(&mut self.run, Run::Empty).into_ints(self.alloc) {
            Ok(mut ints) => {
                let outcome = extend_with_room(&mut ints, more, self.room);
                self.run = Run::Ints(ints);
                outcome
            }
            Err(other) => {
                self.run = other;
                self.extend_from_leaves(more)
            }
        }
    }

    /// Adds truth values at the end.
    pub fn extend_from_bools(&mut self, more: &[bool]) -> Result<(), AllocError>
        ensures ok { OnOk result (elements_of self.new ≡ elements_of self.old ++ map boolean more.now) }
        ensures err { OnErr result (elements_of self.new ≡ elements_of self.old) }
    {
        match mem::replace(&mut self.run, Run::Empty).into_bools(self.alloc) {
            Ok(mut bools) => {
                let outcome = extend_with_room(&mut bools, more, self.room);
                self.run = Run::Bools(bools);
                outcome
            }
            Err(other) => {
                self.run = other;
                self.extend_from_leaves(more)
            }
        }
    }

    /// Adds characters at the end.
    pub fn extend_from_chars(&mut self, more: &[u8]) -> Result<(), AllocError>
        ensures ok { OnOk result (elements_of self.new ≡ elements_of self.old ++ map character more.now) }
        ensures err { OnErr result (elements_of self.new ≡ elements_of self.old) }
    {
        match mem::replace(&mut self.run, Run::Empty).into_chars(self.alloc) {
            Ok(mut chars) => {
                let outcome = extend_with_room(&mut chars, more, self.room);
                self.run = Run::Chars(chars);
                outcome
            }
            Err(other) => {
                self.run = other;
                self.extend_from_leaves(more)
            }
        }
    }

    // Adds leaves as values of their own.
    fn extend_from_leaves<T: Leaf>(&mut self, more: &[T]) -> Result<(), AllocError>
        ensures ok { OnOk result (elements_of self.new ≡ elements_of self.old ++ map T.leaf more.now) }
        ensures err { OnErr result (elements_of self.new ≡ elements_of self.old) }
    {
        match mem::replace(&mut self.run, Run::Empty).into_values(self.alloc, self.room) {
            Ok(mut values) => {
                let outcome = extend_with_leaves(&mut values, more);
                self.run = Run::Values(values);
                outcome
            }
            Err(other) => {
                self.run = other;
                Err(AllocError)
            }
        }
    }

    fn extend_from_copies<B: Allocator>(&mut self, more: &[Value<B>]) -> Result<(), AllocError>
        ensures ok { OnOk result (elements_of self.new ≡ elements_of self.old ++ map tree_of more.now) }
        ensures err { OnErr result (elements_of self.new ≡ elements_of self.old) }
    {
        match mem::replace(&mut self.run, Run::Empty).into_values(self.alloc, self.room) {
            Ok(mut values) => {
                let outcome = extend_with_copies(&mut values, more, self.alloc);
                self.run = Run::Values(values);
                outcome
            }
            Err(other) => {
                self.run = other;
                Err(AllocError)
            }
        }
    }

    fn extend_from_shares(&mut self, more: &[Value<A>]) -> Result<(), AllocError>
        ensures ok { OnOk result (elements_of self.new ≡ elements_of self.old ++ map tree_of more.now) }
        ensures err { OnErr result (elements_of self.new ≡ elements_of self.old) }
    {
        match mem::replace(&mut self.run, Run::Empty).into_values(self.alloc, self.room) {
            Ok(mut values) => {
                let outcome = extend_with_shares(&mut values, more);
                self.run = Run::Values(values);
                outcome
            }
            Err(other) => {
                self.run = other;
                Err(AllocError)
            }
        }
    }

    fn append_values(&mut self, mut more: Vec<Value<A>, A>) -> Result<(), AllocError>
        ensures ok { OnOk result (elements_of self.new ≡ elements_of self.old ++ map tree_of more.items) }
        ensures err { OnErr result (elements_of self.new ≡ elements_of self.old) }
    {
        match mem::replace(&mut self.run, Run::Empty).into_values(self.alloc, self.room) {
            Ok(mut values) => {
                let outcome = append_with_room(&mut values, &mut more, self.room);
                self.run = Run::Values(values);
                outcome
            }
            Err(other) => {
                self.run = other;
                Err(AllocError)
            }
        }
    }

    fn push_value(&mut self, item: Value<A>) -> Result<(), AllocError>
        ensures ok { OnOk result (elements_of self.new ≡ elements_of self.old ++ tree_of item ∷ []) }
        ensures err { OnErr result (elements_of self.new ≡ elements_of self.old) }
    {
        let room = self.room;
        if let Run::Values(values) = &mut self.run {
            return push_with_room(values, item, room);
        }
        match mem::replace(&mut self.run, Run::Empty).into_values(self.alloc, self.room) {
            Ok(mut values) => {
                let outcome = push_with_room(&mut values, item, self.room);
                self.run = Run::Values(values);
                outcome
            }
            Err(other) => {
                self.run = other;
                Err(AllocError)
            }
        }
    }
}

// Adds an item at the end; the first one takes room for that many.
fn push_with_room<T: Drop, A: Allocator>(
    items: &mut Vec<T, A>,
    item: T,
    room: usize,
) -> Result<(), AllocError>
    ensures { items.new.items
        ≡ (if is_ok result then items.old.items ++ item ∷ [] else items.old.items) }
{
    if items.is_empty() {
        items.reserve(room)?;
    }
    items.push(item)?;
    Ok(())
}

// Adds a slice at the end; the first takes room for that many.
fn extend_with_room<T: Copy, A: Allocator>(
    items: &mut Vec<T, A>,
    more: &[T],
    room: usize,
) -> Result<(), AllocError>
    ensures { items.new.items
        ≡ (if is_ok result then items.old.items ++ more.now else items.old.items) }
{
    if items.is_empty() {
        items.reserve(room)?;
    }
    items.extend_from_slice(more)
}

// Moves items to the end; the first take room for that many.
fn append_with_room<T: Drop, A: Allocator>(
    items: &mut Vec<T, A>,
    more: &mut Vec<T, A>,
    room: usize,
) -> Result<(), AllocError>
    ensures { items.new.items
        ≡ (if is_ok result then items.old.items ++ more.old.items else items.old.items) }
{
    if items.is_empty() {
        items.reserve(room)?;
    }
    items.append(more)
}

// Adds leaves as values of their own, all of them or none.
fn extend_with_leaves<T: Leaf, A: Allocator>(
    values: &mut Vec<Value<A>, A>,
    more: &[T],
) -> Result<(), AllocError>
    ensures ok { OnOk result
        (map tree_of values.new.items ≡ map tree_of values.old.items ++ map T.leaf more.now) }
    ensures err { OnErr result (values.new.items ≡ values.old.items) }
{
    let len = values.len();
    let outcome = push_leaves(values, more);
    if outcome.is_err() {
        values.truncate(len);
    }
    outcome
}

// Adds leaves as values of their own, or some of them.
fn push_leaves<T: Leaf, A: Allocator>(
    values: &mut Vec<Value<A>, A>,
    more: &[T],
) -> Result<(), AllocError>
    ensures ok { OnOk result
        (map tree_of values.new.items ≡ map tree_of values.old.items ++ map T.leaf more.now) }
    ensures kept { take (vec_len values.old) values.new.items ≡ values.old.items }
{
    values.reserve(more.len())?;
    for leaf in more {
        values.push(leaf.into_value())?;
    }
    Ok(())
}

// Adds copies of values, all of them or none.
fn extend_with_copies<A: Allocator + Copy, B: Allocator>(
    values: &mut Vec<Value<A>, A>,
    more: &[Value<B>],
    alloc: A,
) -> Result<(), AllocError>
    ensures ok { OnOk result
        (map tree_of values.new.items ≡ map tree_of values.old.items ++ map tree_of more.now) }
    ensures err { OnErr result (values.new.items ≡ values.old.items) }
{
    let len = values.len();
    let outcome = push_copies(values, more, alloc);
    if outcome.is_err() {
        values.truncate(len);
    }
    outcome
}

// Adds copies of values, or of some of them.
fn push_copies<A: Allocator + Copy, B: Allocator>(
    values: &mut Vec<Value<A>, A>,
    more: &[Value<B>],
    alloc: A,
) -> Result<(), AllocError>
    ensures ok { OnOk result
        (map tree_of values.new.items ≡ map tree_of values.old.items ++ map tree_of more.now) }
    ensures kept { take (vec_len values.old) values.new.items ≡ values.old.items }
{
    values.reserve(more.len())?;
    for value in more {
        values.push(value.copy_into(alloc)?)?;
    }
    Ok(())
}

// Adds owners of values, all of them or none.
fn extend_with_shares<A: Allocator>(
    values: &mut Vec<Value<A>, A>,
    more: &[Value<A>],
) -> Result<(), AllocError>
    ensures ok { OnOk result
        (map tree_of values.new.items ≡ map tree_of values.old.items ++ map tree_of more.now) }
    ensures err { OnErr result (values.new.items ≡ values.old.items) }
{
    let len = values.len();
    let outcome = push_shares(values, more);
    if outcome.is_err() {
        values.truncate(len);
    }
    outcome
}

// Adds owners of values, or of some of them.
fn push_shares<A: Allocator>(
    values: &mut Vec<Value<A>, A>,
    more: &[Value<A>],
) -> Result<(), AllocError>
    ensures ok { OnOk result
        (map tree_of values.new.items ≡ map tree_of values.old.items ++ map tree_of more.now) }
    ensures kept { take (vec_len values.old) values.new.items ≡ values.old.items }
{
    values.reserve(more.len())?;
    for value in more {
        values.push(value.share()?)?;
    }
    Ok(())
}
