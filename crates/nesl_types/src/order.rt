//! Names in order of first definition, each found by its bytes.

ghost use Rattle.std.specs.Prelude.{◌≡◌, OnOk, OnErr};

use std::alloc::{AllocError, Global};
use std::collections::BTreeMap;
use std::marker::Model;

/// Names in the order in which they were first given. A map in order has their places, so that nobody can choose names
/// that are slow to find.
pub struct NameOrder {
    names: Vec<Vec<u8>>,
    places: BTreeMap<Vec<u8>, usize>,
}

// By hand, so that no crate above has to prove how the parts are dropped.
impl Drop for NameOrder {
    fn drop(self) {
        let NameOrder { names, places } = self;
        drop((names, places));
    }
}

impl Model for NameOrder {
    ghost use Rattle.std.specs.Prelude.{ℕ, List, map};
    ghost use Rattle.nesl_types.specs.Order.{HasPlaces};

    ghost Value = { List (List ℕ) };

    ghost view = { λ o. map (λ n. n.items) o.names.items };

    ghost invariant = { λ o. HasPlaces (λ k. k.items) o.places.entries (map (λ n. n.items) o.names.items) };
}

impl NameOrder {
    ghost use Rattle.std.specs.Prelude.{[], ◌∷◌, ◌++◌, None, length, slice_get};
    ghost use Rattle.std.specs.Option.{option_map};
    ghost use Rattle.nesl_types.specs.Order.{place_of};

    /// No names.
    pub fn new(alloc: Global) -> Self
        ensures { result ≡ [] }
    {
        NameOrder {
            names: Vec::new(alloc),
            places: BTreeMap::new(alloc),
        }
    }

    /// How many names there are.
    pub fn len(&self) -> usize
        ensures { result ≡ length self.now }
    {
        self.names.len()
    }

    /// The place of a name in the order, from 0.
    pub fn place_of(&self, name: &[u8]) -> Option<usize>
        ensures { result ≡ place_of self.now name.now }
    {
        match self.places.get(name) {
            Some(place) => Some(*place),
            None => None,
        }
    }

    /// The name at a place in the order.
    pub fn at(&self, place: usize) -> Option<&[u8]>
        ensures { option_map (λ n. n.now) result ≡ slice_get self.now place }
    {
        match self.names.get(place) {
            Some(name) => Some(name.as_slice()),
            None => None,
        }
    }

    /// Puts a new name after all others.
    pub(crate) fn add(&mut self, alloc: Global, name: &[u8]) -> Result<(), AllocError>
        requires { place_of self.old name.now ≡ None }
        ensures ok { OnOk result (self.new ≡ self.old ++ name.now ∷ []) }
        ensures err { OnErr result (self.new ≡ self.old) }
    {
        let key = Vec::from_slice(alloc, name)?;
        let copy = Vec::from_slice(alloc, name)?;
        self.names.reserve(1)?;
        let place = self.names.len();
        self.places.insert(key, place)?;
        self.names.push_reserved(copy);
        Ok(())
    }
}
