//! Local names.

use crate::clash::Shortage;
use std::alloc::Global;
use std::collections::BTreeMap;

/// A name that was bound, and the place that it meant before.
#[derive(Clone, Copy)]
struct Local<'e> {
    name: &'e [u8],
    hidden: Option<usize>,
}

/// Local names, each of which means the type at a place.
#[derive(Drop)]
pub(crate) struct Names<'e> {
    places: BTreeMap<&'e [u8], usize>,
    locals: Vec<Local<'e>>,
}

impl<'e> Names<'e> {
    /// No names.
    pub(crate) fn new(alloc: Global) -> Names<'e> {
        Names {
            places: BTreeMap::new(alloc),
            locals: Vec::new(alloc),
        }
    }

    /// The place that a name means.
    pub(crate) fn place_of(&self, name: &'e [u8]) -> Option<usize> {
        match self.places.get(&name) {
            Some(place) => Some(*place),
            None => None,
        }
    }

    /// A name means the type at a place from now on.
    pub(crate) fn bind(&mut self, name: &'e [u8], place: usize) -> Result<(), Shortage> {
        let hidden = self.places.insert(name, place)?;
        self.locals.push(Local { name, hidden })?;
        Ok(())
    }

    /// The number of names that are bound.
    pub(crate) fn len(&self) -> usize {
        self.locals.len()
    }

    /// All names but the first `kept` mean again what they meant before they were bound.
    pub(crate) fn forget_behind(&mut self, kept: usize) -> Result<(), Shortage> {
        for _ in kept..self.locals.len() {
            if let Some(local) = self.locals.pop() {
                match local.hidden {
                    Some(place) => {
                        self.places.insert(local.name, place)?;
                    }
                    None => {
                        self.places.remove(&local.name);
                    }
                }
            }
        }
        Ok(())
    }
}
