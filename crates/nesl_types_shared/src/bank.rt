//! Types that are each made of earlier ones.

use crate::part::Part;
use crate::parts::Parts;
use crate::shape::Shape;
use crate::shapes::{index_with, place_in, place_of};
use indexmap::IndexSet;
use std::alloc::{AllocError, Global};
use std::marker::Model;

/// Types, each made of earlier ones, no two of them equal. A type is known by its place.
pub struct Bank {
    shapes: Vec<Shape>,
    /// The same shapes with their places by their hashes, where they are many.
    index: Option<Box<IndexSet<Shape>>>,
    /// How many nodes the type at each place has.
    sizes: Vec<u64>,
}

// By hand, so that no crate above has to prove how the parts are dropped.
impl Drop for Bank {
    fn drop(self) {
        let Bank {
            shapes,
            index,
            sizes,
        } = self;
        drop((shapes, index, sizes));
    }
}

impl Model for Bank {
    ghost use Rattle.std.specs.Prelude.{List};
    ghost use Rattle.std.specs.Coded.{coded_list};
    ghost use Rattle.nesl_types_shared.specs.Term.{Term};
    ghost use Rattle.nesl_types_shared.specs.Codes.{term_code};

    ghost Value = { List Term };

    ghost coded = { coded_list term_code };

    ghost use Rattle.nesl_types_shared.specs.Types.{types, IsBank};

    ghost view = { λ b. types b.shapes.items };

    ghost use Rattle.std.specs.Prelude.{◌≡◌, IfSome};

    ghost invariant = { λ b. IsBank b.shapes.items b.sizes.items
        × IfSome b.index (λ index. index.value.keys ≡ b.shapes.items) };
}

ghost use Rattle.std.specs.Prelude.{◌≡◌, ◌<◌, ◌↔◌, ◌++◌, ◌∷◌, [], IsTrue, length, slice_index};
ghost use Rattle.std.specs.Prelude.{IfSome, IfOk, OnOk, OnErr, vec_len};
ghost use Rattle.std.specs.Vec.{vec_capacity};
ghost use Rattle.nesl_types_shared.specs.Shapes.{IsShapeBelow, shape_type, shape_size};
ghost use Rattle.nesl_types_shared.specs.Types.{type_at, size_of, AreDistinct, StandOnce, IsAbsent, Extends, IsPut};

/// How many nodes the type of a shape has, where `sizes` has those of its parts.
fn size_of(sizes: &[u64], shape: Shape) -> u64
    requires { IsShapeBelow (length sizes.now) shape }
    ensures { result ≡ shape_size (slice_index sizes.now) shape }
{
    match shape {
        Shape::SeqOf(item) => sizes[item].saturating_add(1),
        Shape::Both(first, second) => sizes[first].saturating_add(sizes[second]).saturating_add(1),
        _ => 1,
    }
}

/// How many types a bank takes room for at its first.
const FIRST_ROOM: usize = 36;

/// Room for one type more.
fn reserve(shapes: &mut Vec<Shape>, sizes: &mut Vec<u64>) -> Result<(), AllocError>
    ensures shapes { shapes.new.items ≡ shapes.old.items }
    ensures sizes { sizes.new.items ≡ sizes.old.items }
    ensures room { OnOk result ((vec_len shapes.new < vec_capacity shapes.new)
        × (vec_len sizes.new < vec_capacity sizes.new)) }
{
    let room = if shapes.is_empty() { FIRST_ROOM } else { 1 };
    shapes.reserve(room)?;
    sizes.reserve(room)
}

/// Puts a shape and its size after the others, where room for them was taken.
fn push(shapes: &mut Vec<Shape>, sizes: &mut Vec<u64>, shape: Shape)
    requires below { IsShapeBelow (length sizes.old.items) shape }
    requires room { vec_len shapes.old < vec_capacity shapes.old }
    requires sizes { vec_len sizes.old < vec_capacity sizes.old }
    ensures shapes { shapes.new.items ≡ shapes.old.items ++ shape ∷ [] }
    ensures sizes { sizes.new.items ≡ sizes.old.items ++ shape_size (slice_index sizes.old.items) shape ∷ [] }
{
    let size = size_of(sizes.as_slice(), shape);
    sizes.push_reserved(size);
    shapes.push_reserved(shape);
}

/// Adds a shape that isn't there, and its size.
fn add(
    shapes: &mut Vec<Shape>,
    index: &mut Option<Box<IndexSet<Shape>>>,
    sizes: &mut Vec<u64>,
    shape: Shape,
) -> Result<(), AllocError>
    requires below { IsShapeBelow (length sizes.old.items) shape }
    requires once { StandOnce shapes.old.items }
    requires absent { IsAbsent shapes.old.items shape }
    ensures shapes { OnOk result (shapes.new.items ≡ shapes.old.items ++ shape ∷ []) }
    ensures sizes { OnOk result (sizes.new.items
        ≡ sizes.old.items ++ shape_size (slice_index sizes.old.items) shape ∷ []) }
    ensures index { OnOk result (IfSome index.new (λ i. i.value.keys ≡ shapes.new.items)) }
    ensures err { OnErr result ((shapes.new.items ≡ shapes.old.items) × (sizes.new.items ≡ sizes.old.items)
        × (index.new ≡ index.old)) }
{
    reserve(shapes, sizes)?;
    let alloc = *shapes.allocator();
    *index = index_with(alloc, shapes.as_slice(), shape)?;
    push(shapes, sizes, shape);
    Ok(())
}

impl Bank {
    ghost use Rattle.std.specs.Prelude.{[]};

    /// A bank with no types.
    pub fn new(alloc: Global) -> Bank
        ensures { result ≡ [] }
    {
        Bank {
            shapes: Vec::new(alloc),
            index: None,
            sizes: Vec::new(alloc),
        }
    }

    /// Its types, borrowed.
    pub fn parts(&self) -> Parts<'_>
        ensures { result ≡ self.now }
    {
        Parts::of(self.shapes.as_slice())
    }

    /// The type at a place, borrowed.
    pub fn part(&self, place: usize) -> Part<'_>
        requires { place < length self.now }
        ensures { result ≡ type_at self.now place }
    {
        Part::of(self.parts(), place)
    }

    /// How many types there are.
    pub fn len(&self) -> usize
        ensures len { result ≡ length self.now }
        ensures distinct { AreDistinct self.now }
    {
        self.sizes.len()
    }

    /// The shape of the type at a place.
    pub fn shape(&self, place: usize) -> Shape
        requires { place < length self.now }
        ensures parts { IsShapeBelow place result }
        ensures shape { type_at self.now place ≡ shape_type (type_at self.now) result }
    {
        self.shapes.as_slice()[place]
    }

    /// How many nodes the type at a place has, at most `u64::MAX`.
    pub fn nodes(&self, place: usize) -> u64
        requires { place < length self.now }
        ensures { result ≡ size_of (type_at self.now place) }
    {
        self.sizes[place]
    }

    /// Whether the types at two places are the same: no type occurs twice.
    pub fn is_same(&self, first: usize, second: usize) -> bool
        requires first { first < length self.now }
        requires second { second < length self.now }
        ensures { IsTrue result ↔ (type_at self.now first ≡ type_at self.now second) }
    {
        let _ = &self.shapes;
        first == second
    }

    /// The place of the type of a shape, where it is there.
    pub fn find(&self, shape: Shape) -> Option<usize>
        requires { IsShapeBelow (length self.now) shape }
        ensures { IfSome result (λ place. (place < length self.now)
            × (type_at self.now place ≡ shape_type (type_at self.now) shape)) }
    {
        match &self.index {
            Some(index) => index.get_index_of(&shape),
            None => place_in(self.shapes.as_slice(), shape),
        }
    }

    /// The place of the type of a shape, which is added where it isn't there.
    pub fn put(&mut self, shape: Shape) -> Result<usize, AllocError>
        requires { IsShapeBelow (length self.old) shape }
        ensures extends { Extends self.old self.new }
        ensures ok { IfOk result (λ place. IsPut self.old self.new (shape_type (type_at self.old) shape) place) }
        ensures err { OnErr result (self.new ≡ self.old) }
    {
        if let Some(index) = &mut self.index {
            reserve(&mut self.shapes, &mut self.sizes)?;
            let (place, added) = place_of(index, shape)?;
            if added {
                push(&mut self.shapes, &mut self.sizes, shape);
            }
            return Ok(place);
        }
        if let Some(place) = place_in(self.shapes.as_slice(), shape) {
            return Ok(place);
        }
        let place = self.shapes.len();
        add(&mut self.shapes, &mut self.index, &mut self.sizes, shape)?;
        Ok(place)
    }
}
