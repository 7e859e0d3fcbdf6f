//! What each top-level name is.

use crate::kept::{Kept, Marks};
use crate::order::NameOrder;
use crate::schemes::Scheme;
use nesl_types_shared::Ty;
use std::alloc::{AllocError, Global};
use std::marker::Model;

/// What a top-level name is.
pub enum Top {
    /// A variable of a type.
    Variable(Ty),
    /// A function.
    Function(Scheme),
    /// A datatype: its tag, which is its number in order of definition from 0, and the type that its records hold.
    Datatype(u64, Ty),
}

// By hand, so that no crate above has to prove how the parts are dropped.
impl Drop for Top {
    fn drop(self) {
        match self {
            Top::Variable(ty) => drop(ty),
            Top::Function(scheme) => drop(scheme),
            Top::Datatype(_, ty) => drop(ty),
        }
    }
}

#[derive(Drop)]
struct Entry<P> {
    top: Top,
    payload: P,
    /// The numbers under which its types are kept.
    marks: Marks,
}

/// What each top-level name is, each with a payload, in order of first definition.
pub struct Context<P> {
    names: NameOrder,
    /// What each name is, in the order of the names.
    entries: Vec<Entry<P>>,
    /// The place of each datatype, by its tag. After a name was made something else, a place may be too small.
    places: Vec<usize>,
    /// The types of the names, each once.
    kept: Kept,
}

// By hand, so that no crate above has to prove how the parts are dropped.
impl<P: Drop> Drop for Context<P> {
    fn drop(self) {
        let Context {
            names,
            entries,
            places,
            kept,
        } = self;
        drop((names, entries, places, kept));
    }
}

impl<P> Model for Context<P> {
    ghost use Rattle.std.specs.Prelude.{◌≡◌, ℕ, List, map, length};
    ghost use Rattle.nesl_types.specs.declared.bindings.Top.{Top};
    ghost use Rattle.std.specs.Coded.{codes};
    ghost use Rattle.nesl_types_shared.specs.contracts.types.Ty as ty;

    ghost Value = { List (List ℕ × Top × P) };

    ghost coded = { Prim.hlevel (codes, ty.the_row.coded, P.code) };

    ghost use Rattle.nesl_types.specs.Names.{AreReached, named};

    ghost view = { λ c. named c.names (map (λ e. (e.top, e.payload)) c.entries.items) };

    ghost invariant = { λ c. (length c.names ≡ length c.entries.items)
        × AreReached (map (λ e. e.top) c.entries.items) c.places.items };
}

ghost use Rattle.std.specs.Prelude.{◌≡◌, ◌≢◌, ◌≤◌, ◌<◌, ℕ, List, Some, None, false, map, length, IfOk, OnOk, OnErr};
ghost use Rattle.std.specs.Prelude.{slice_get, slice_index, vec_len, vec_capacity, IsTrue};
ghost use Rattle.std.specs.Option.{option_map};
ghost use Rattle.nesl_types.specs.declared.bindings.Top.{Top as Tops};
ghost use Rattle.nesl_types.specs.Order.{place_of};
ghost use Rattle.nesl_types.specs.Names.{AreReached, is_datatype, is_datatype_at, datatype_place, with_name};
ghost use Rattle.nesl_types.specs.Names.{named, with_name_at};

// Whether a name is the datatype with the tag.
fn is_datatype(top: &Top, tag: u64) -> bool
    ensures { result ≡ is_datatype tag top.now }
{
    match top {
        Top::Datatype(number, _) => *number == tag,
        _ => false,
    }
}

// Whether the entry at a place is the datatype with the tag.
fn is_datatype_at<P: Drop>(entries: &[Entry<P>], place: usize, tag: u64) -> bool
    ensures { result ≡ is_datatype_at (map (λ e. e.top) entries.now) place tag }
{
    match entries.get(place) {
        Some(entry) => is_datatype(&entry.top, tag),
        None => false,
    }
}

// How many entries come before the datatype with the tag. There are at least as many as `from`.
fn datatype_place<P: Drop>(entries: &[Entry<P>], tag: u64, from: usize) -> usize
    requires { from ≤ datatype_place (map (λ e. e.top) entries.now) tag }
    ensures { result ≡ datatype_place (map (λ e. e.top) entries.now) tag }
{
    for place in from..entries.len() {
        if is_datatype_at(entries, place, tag) {
            return place;
        }
    }
    entries.len()
}

// The tag of a datatype.
fn tag_of(top: &Top) -> Option<u64>
    ensures { (tag : ℕ) → result ≢ Some tag → is_datatype tag top.now ≡ false }
{
    match top {
        Top::Datatype(tag, _) => Some(*tag),
        _ => None,
    }
}

// Notes the place of the datatype with the tag, where one was set. A tag that skips some is not noted.
fn note_place<P: Drop>(places: &mut Vec<usize>, entries: &[Entry<P>], tag: Option<u64>)
    requires room { vec_len places.old < vec_capacity places.old }
    requires others { (other : ℕ) → tag ≢ Some other → slice_index places.old.items other
        ≤ datatype_place (map (λ e. e.top) entries.now) other }
    ensures { AreReached (map (λ e. e.top) entries.now) places.new.items }
{
    if let Some(tag) = tag {
        let place = datatype_place(entries, tag, 0);
        let number = tag as usize;
        if number < places.len() {
            places[number] = place;
        } else if number == places.len() {
            places.push_reserved(place);
        }
    }
}

impl Top {
    // What shares the parts of types that are kept, and the numbers under which its own types are.
    fn shared(self, alloc: Global, kept: &mut Kept) -> Result<(Top, Marks), AllocError>
        ensures { IfOk result (λ r. r.0 ≡ self) }
    {
        match self {
            Top::Variable(ty) => {
                let (ty, mark) = kept.share(alloc, ty)?;
                Ok((Top::Variable(ty), Marks::one(mark)))
            }
            Top::Function(scheme) => {
                let (scheme, marks) = scheme.shared(alloc, kept)?;
                Ok((Top::Function(scheme), marks))
            }
            Top::Datatype(tag, ty) => {
                let (ty, mark) = kept.share(alloc, ty)?;
                Ok((Top::Datatype(tag, ty), Marks::one(mark)))
            }
        }
    }
}

// Whether both are variables of one type.
fn are_variables_of_one_type(old: &Top, new: &Top) -> bool
    ensures same { IsTrue result → old.now ≡ new.now }
    ensures kind { IsTrue result → (tag : ℕ) → is_datatype tag new.now ≡ false }
{
    match (old, new) {
        (Top::Variable(old), Top::Variable(new)) => old.same(new),
        _ => false,
    }
}

// Whether the entry at a place is a variable, and what is given is one of its type.
fn is_variable_at<P: Drop>(entries: &[Entry<P>], place: usize, top: &Top) -> bool
    ensures same { IsTrue result → option_map (λ e. e.top) (slice_get entries.now place) ≡ Some top.now }
    ensures kind { IsTrue result → (tag : ℕ) → is_datatype tag top.now ≡ false }
{
    match entries.get(place) {
        Some(entry) => are_variables_of_one_type(&entry.top, top),
        None => false,
    }
}

// Sets the payload of the entry at a place, which stays what it is.
fn set_payload<P: Drop>(entries: &mut Vec<Entry<P>>, place: usize, payload: P)
    ensures len { length entries.new.items ≡ length entries.old.items }
    ensures set { (names : List (List ℕ)) → (top : Tops)
        → option_map (λ e. e.top) (slice_get entries.old.items place) ≡ Some top
        → named names (map (λ e. (e.top, e.payload)) entries.new.items)
        ≡ with_name_at place top payload (named names (map (λ e. (e.top, e.payload)) entries.old.items)) }
{
    if let Some(entry) = entries.get_mut(place) {
        entry.payload = payload;
    }
}

// Replaces the entry at a place. The numbers are those of the entry that is dropped.
fn set_entry<P: Drop>(entries: &mut Vec<Entry<P>>, place: usize, entry: Entry<P>) -> Marks
    ensures len { length entries.new.items ≡ length entries.old.items }
    ensures set { (names : List (List ℕ)) → named names (map (λ e. (e.top, e.payload)) entries.new.items)
        ≡ with_name_at place entry.top entry.payload
        (named names (map (λ e. (e.top, e.payload)) entries.old.items)) }
{
    match entries.get_mut(place) {
        Some(there) => {
            let marks = there.marks;
            *there = entry;
            marks
        }
        None => entry.marks,
    }
}

// Gives a name its entry: in place of the one that it has, or else after all others. The numbers are those of the entry
// that is dropped.
fn put_entry<P: Drop>(
    alloc: Global,
    names: &mut NameOrder,
    entries: &mut Vec<Entry<P>>,
    name: &[u8],
    entry: Entry<P>,
) -> Result<Marks, AllocError>
    requires room { vec_len entries.old < vec_capacity entries.old }
    requires len { length names.old ≡ length entries.old.items }
    ensures len { length names.new ≡ length entries.new.items }
    ensures set { OnOk result (named names.new (map (λ e. (e.top, e.payload)) entries.new.items)
        ≡ with_name name.now entry.top entry.payload
        (named names.old (map (λ e. (e.top, e.payload)) entries.old.items))) }
    ensures names { OnErr result (names.new ≡ names.old) }
    ensures entries { OnErr result (entries.new.items ≡ entries.old.items) }
{
    match names.place_of(name) {
        Some(place) => Ok(set_entry(entries, place, entry)),
        None => {
            names.add(alloc, name)?;
            entries.push_reserved(entry);
            Ok(Marks::one(None))
        }
    }
}

// Makes room for the place of one datatype more, and for the types of one name more.
fn reserve_types(places: &mut Vec<usize>, kept: &mut Kept) -> Result<(), AllocError>
    ensures places { places.new.items ≡ places.old.items }
    ensures room { OnOk result (vec_len places.new < vec_capacity places.new) }
{
    places.reserve(1)?;
    kept.reserve()
}

// Makes room for one entry more, and for its types.
fn reserve_entry<P: Drop>(
    entries: &mut Vec<Entry<P>>,
    places: &mut Vec<usize>,
    kept: &mut Kept,
) -> Result<(), AllocError>
    ensures places { places.new.items ≡ places.old.items }
    ensures room { OnOk result (vec_len places.new < vec_capacity places.new) }
    ensures entries { entries.new.items ≡ entries.old.items }
    ensures entry { OnOk result (vec_len entries.new < vec_capacity entries.new) }
{
    reserve_types(places, kept)?;
    entries.reserve(1)
}

impl<P: Drop> Context<P> {
    ghost use Rattle.std.specs.Prelude.{[]};
    ghost use Rattle.nesl_types.specs.Names.{found, datatype_at};

    /// A context with no names.
    pub fn new(alloc: Global) -> Self
        ensures { result ≡ [] }
    {
        Context {
            names: NameOrder::new(alloc),
            entries: Vec::new(alloc),
            places: Vec::new(alloc),
            kept: Kept::new(alloc),
        }
    }

    /// What the name is, and its payload.
    pub fn get(&self, name: &[u8]) -> Option<(&Top, &P)>
        ensures { option_map (λ b. (b.0.now, b.1.now)) result ≡ found name.now self.now }
    {
        let place = self.names.place_of(name)?;
        let entry = self.entries.get(place)?;
        Some((&entry.top, &entry.payload))
    }

    /// The name at a place in the order of first definition, what it is, and its payload.
    pub fn at(&self, place: usize) -> Option<(&[u8], &Top, &P)>
        ensures { option_map (λ b. (b.0.now, b.1.now, b.2.now)) result ≡ slice_get self.now place }
    {
        let name = self.names.at(place)?;
        let entry = self.entries.get(place)?;
        Some((name, &entry.top, &entry.payload))
    }

    /// The names, each with its place.
    pub fn names(&self) -> &NameOrder
        ensures { result.now ≡ map (λ b. b.0) self.now }
    {
        &self.names
    }

    /// The name of the datatype with the tag, what it is, and its payload.
    pub fn datatype(&self, tag: u64) -> Option<(&[u8], &Top, &P)>
        ensures { option_map (λ b. (b.0.now, b.1.now, b.2.now)) result ≡ datatype_at self.now tag }
    {
        let from = match self.places.get(tag as usize) {
            Some(place) => *place,
            None => 0,
        };
        let place = datatype_place(self.entries.as_slice(), tag, from);
        self.at(place)
    }

    /// Makes the name what is given: in its place where it has one, else after all others. A type that is equal to one
    /// of another name shares its parts.
    pub fn set(
        &mut self,
        alloc: Global,
        name: &[u8],
        top: Top,
        payload: P,
    ) -> Result<(), AllocError>
        ensures ok { OnOk result (self.new ≡ with_name name.now top payload self.old) }
        ensures err { OnErr result (self.new ≡ self.old) }
    {
        reserve_entry(&mut self.entries, &mut self.places, &mut self.kept)?;
        let tag = tag_of(&top);
        let (top, marks) = top.shared(alloc, &mut self.kept)?;
        let entry = Entry {
            top,
            payload,
            marks,
        };
        let put = put_entry(alloc, &mut self.names, &mut self.entries, name, entry);
        let Ok(before) = put else {
            self.kept.release(marks);
            return Err(AllocError);
        };
        self.kept.release(before);
        note_place(&mut self.places, self.entries.as_slice(), tag);
        Ok(())
    }

    /// Makes the name at a place in the order of first definition what is given. No name at that place: no change.
    pub fn replace(
        &mut self,
        alloc: Global,
        place: usize,
        top: Top,
        payload: P,
    ) -> Result<(), AllocError>
        ensures ok { OnOk result (self.new ≡ with_name_at place top payload self.old) }
        ensures err { OnErr result (self.new ≡ self.old) }
    {
        if is_variable_at(self.entries.as_slice(), place, &top) {
            set_payload(&mut self.entries, place, payload);
            return Ok(());
        }
        reserve_types(&mut self.places, &mut self.kept)?;
        let tag = tag_of(&top);
        let (top, marks) = top.shared(alloc, &mut self.kept)?;
        let entry = Entry {
            top,
            payload,
            marks,
        };
        let before = set_entry(&mut self.entries, place, entry);
        self.kept.release(before);
        note_place(&mut self.places, self.entries.as_slice(), tag);
        Ok(())
    }

    /// How many names there are.
    pub fn len(&self) -> usize
        ensures { result ≡ length self.now }
    {
        self.names.len()
    }

    /// How many different types the names have, as far as they share their parts. No reply depends on it.
    pub fn kept_types(&self) -> usize {
        self.kept.len()
    }
}
