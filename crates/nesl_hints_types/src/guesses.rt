//! Types that are being found.

use crate::clash::Shortage;
use nesl_types::Class;
use std::alloc::Global;

/// The most guesses that are made of one form.
const MOST_GUESSES: usize = 500_000;

/// The steps that are taken for each byte of a form.
const STEPS_PER_BYTE: u64 = 128;

/// The fewest bytes that a form is taken to have, since a short one may call functions with large types.
const FEWEST_BYTES: usize = 8_192;

/// What is known of a type so far. Its parts are given by their places.
#[derive(Clone, Copy)]
pub enum Guess {
    /// Any type of a class.
    Open(Class),
    /// The type at another place.
    Same(usize),
    /// The type of numbers.
    Int,
    /// The type of truth values.
    Bool,
    /// The type of characters.
    Char,
    /// A datatype, by its tag.
    Named(u64),
    /// Sequences of this type.
    Sequence(usize),
    /// Pairs of these types.
    Pair(usize, usize),
}

/// What is at a place.
#[derive(Clone, Copy)]
struct Slot {
    guess: Guess,
    /// How many places have their type here, this one included.
    weight: usize,
    /// The number of the last search that saw it.
    seen: u64,
}

/// Types that are being found, each known by its place.
#[derive(Drop)]
pub struct Guesses {
    pub(crate) alloc: Global,
    slots: Vec<Slot>,
    /// The earlier guesses at the places that the last join changed.
    pub(crate) before: Vec<(usize, Guess)>,
    /// The steps that are left.
    pub(crate) steps: u64,
    /// The number of the last search.
    searches: u64,
}

/// What is known of a type of this class.
pub(crate) fn of_class(class: Class) -> Guess {
    match class {
        Class::Number => Guess::Int,
        _ => Guess::Open(class),
    }
}

impl Guesses {
    /// No types yet, of a form with this number of bytes.
    pub(crate) fn new(alloc: Global, bytes: usize) -> Guesses {
        let counted = bytes.max(FEWEST_BYTES) as u64;
        Guesses {
            alloc,
            slots: Vec::new(alloc),
            before: Vec::new(alloc),
            steps: counted.saturating_mul(STEPS_PER_BYTE),
            searches: 0,
        }
    }

    /// Takes a step, if one is left.
    pub(crate) fn step(&mut self) -> Result<(), Shortage> {
        match self.steps.checked_sub(1) {
            Some(left) => {
                self.steps = left;
                Ok(())
            }
            None => Err(Shortage::Steps),
        }
    }

    /// One more type.
    pub(crate) fn add(&mut self, guess: Guess) -> Result<usize, Shortage> {
        self.step()?;
        let place = self.slots.len();
        if place >= MOST_GUESSES {
            return Err(Shortage::Steps);
        }
        self.slots.push(Slot {
            guess,
            weight: 1,
            seen: 0,
        })?;
        Ok(place)
    }

    /// One more type, of which nothing is known.
    pub(crate) fn open(&mut self) -> Result<usize, Shortage> {
        self.add(Guess::Open(Class::Any))
    }

    // What is at a place.
    fn at(&self, place: usize) -> Guess {
        match self.slots.get(place) {
            Some(slot) => slot.guess,
            None => Guess::Open(Class::Any),
        }
    }

    /// What is known of the type at a place, and the place that has it.
    pub fn find(&self, place: usize) -> (usize, Guess) {
        let mut at = place;
        for _ in 0..self.slots.len() {
            match self.at(at) {
                Guess::Same(next) => at = next,
                guess => return (at, guess),
            }
        }
        (at, Guess::Open(Class::Any))
    }

    /// The same, where each link that is followed is a step.
    pub(crate) fn look(&mut self, place: usize) -> Result<(usize, Guess), Shortage> {
        let mut at = place;
        for _ in 0..self.slots.len() {
            self.step()?;
            match self.at(at) {
                Guess::Same(next) => at = next,
                guess => return Ok((at, guess)),
            }
        }
        Ok((at, Guess::Open(Class::Any)))
    }

    /// What is known of the type at a place.
    pub fn guess(&self, place: usize) -> Guess {
        let (_, guess) = self.find(place);
        guess
    }

    /// Begins a search, which has seen no place yet.
    pub(crate) fn search(&mut self) {
        self.searches = self.searches.saturating_add(1);
    }

    /// Whether the search sees a place for the first time.
    pub(crate) fn is_new(&mut self, place: usize) -> bool {
        let search = self.searches;
        match self.slots.get_mut(place) {
            Some(slot) if slot.seen < search => {
                slot.seen = search;
                true
            }
            _ => false,
        }
    }

    /// The types at two places are one from now on, of which this is known. The one that fewer places have
    /// refers to the other, so no path is longer than the binary digits of the number of places.
    pub(crate) fn unite(
        &mut self,
        first: usize,
        second: usize,
        known: Guess,
    ) -> Result<(), Shortage> {
        let (less, more) = if self.weight(first) > self.weight(second) {
            (second, first)
        } else {
            (first, second)
        };
        let weight = self.weight(less).saturating_add(self.weight(more));
        self.set(less, Guess::Same(more))?;
        self.set(more, known)?;
        if let Some(slot) = self.slots.get_mut(more) {
            slot.weight = weight;
        }
        Ok(())
    }

    // How many places have their type at this one.
    fn weight(&self, place: usize) -> usize {
        match self.slots.get(place) {
            Some(slot) => slot.weight,
            None => 0,
        }
    }

    // This is at a place from now on.
    fn set(&mut self, place: usize, guess: Guess) -> Result<(), Shortage> {
        let old = self.at(place);
        self.before.push((place, old))?;
        self.put(place, guess);
        Ok(())
    }

    /// All is as it was before the last join.
    pub(crate) fn take_back(&mut self) {
        for _ in 0..self.before.len() {
            if let Some((place, guess)) = self.before.pop() {
                self.put(place, guess);
            }
        }
    }

    fn put(&mut self, place: usize, guess: Guess) {
        if let Some(slot) = self.slots.get_mut(place) {
            slot.guess = guess;
        }
    }
}
