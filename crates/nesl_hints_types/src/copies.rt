//! Types of names that are known, among those that are being found.

use crate::clash::Shortage;
use crate::guesses::{Guess, Guesses, of_class};
use nesl_builtins::{Builtin, classes, gives, takes};
use nesl_types::{Class, Part, Scheme, Ty};
use nesl_types_shared::Shape;

/// What a function takes and gives.
#[derive(Clone, Copy)]
pub(crate) struct Ends {
    pub(crate) takes: usize,
    pub(crate) gives: usize,
}

// The place in a list of places.
fn at(places: &[usize], place: usize) -> usize {
    match places.get(place) {
        Some(found) => *found,
        None => 0,
    }
}

impl Guesses {
    /// A copy of a type, whose variables are the types at these places.
    pub(crate) fn copy(&mut self, part: &Part<'_>, variables: &[usize]) -> Result<usize, Shortage> {
        let mut places = Vec::new(self.alloc);
        self.copy_parts(part, variables, &mut places)
    }

    // The same, where the parts that were copied so far are at these places, of which there are none yet.
    fn copy_parts(
        &mut self,
        part: &Part<'_>,
        variables: &[usize],
        places: &mut Vec<usize>,
    ) -> Result<usize, Shortage> {
        let (parts, last) = part.place();
        for place in 0..parts.len() {
            let made = self.copy_shape(parts.shape(place), places.as_slice(), variables)?;
            places.push(made)?;
            if place == last {
                return Ok(made);
            }
        }
        self.open()
    }

    fn copy_shape(
        &mut self,
        shape: Shape,
        places: &[usize],
        variables: &[usize],
    ) -> Result<usize, Shortage> {
        self.step()?;
        match shape {
            Shape::Int => self.add(Guess::Int),
            Shape::Bool => self.add(Guess::Bool),
            Shape::Char => self.add(Guess::Char),
            Shape::Named(tag) => self.add(Guess::Named(tag)),
            Shape::SeqOf(item) => self.add(Guess::Sequence(at(places, item))),
            Shape::Both(first, second) => {
                self.add(Guess::Pair(at(places, first), at(places, second)))
            }
            Shape::Var(variable) => match variables.get(variable as usize) {
                Some(place) => Ok(*place),
                None => self.open(),
            },
        }
    }

    /// What a built-in function takes and gives.
    pub(crate) fn builtin(&mut self, builtin: Builtin) -> Result<Ends, Shortage> {
        self.ends_of(classes(builtin), &takes(builtin), &gives(builtin))
    }

    /// What a defined function takes and gives.
    pub(crate) fn scheme(&mut self, scheme: &Scheme) -> Result<Ends, Shortage> {
        self.ends_of(
            scheme.classes.as_slice(),
            &scheme.argument.whole(),
            &scheme.result.whole(),
        )
    }

    // What a function takes and gives, where its types have variables of these classes.
    fn ends_of(
        &mut self,
        classes: &[Class],
        takes: &Part<'_>,
        gives: &Part<'_>,
    ) -> Result<Ends, Shortage> {
        let mut variables = Vec::new(self.alloc);
        self.add_variables(classes, &mut variables)?;
        self.copy_ends(takes, gives, variables.as_slice())
    }

    // Adds a type of each class, and notes its place.
    fn add_variables(
        &mut self,
        classes: &[Class],
        places: &mut Vec<usize>,
    ) -> Result<(), Shortage> {
        for class in classes {
            let variable = self.add(of_class(*class))?;
            places.push(variable)?;
        }
        Ok(())
    }

    // Copies of what a function takes and gives, whose variables are the types at these places.
    fn copy_ends(
        &mut self,
        takes: &Part<'_>,
        gives: &Part<'_>,
        variables: &[usize],
    ) -> Result<Ends, Shortage> {
        let takes = self.copy(takes, variables)?;
        let gives = self.copy(gives, variables)?;
        Ok(Ends { takes, gives })
    }

    /// What the function takes and gives that makes records of a datatype, which hold this.
    pub(crate) fn maker(&mut self, tag: u64, content: &Ty) -> Result<Ends, Shortage> {
        let takes = self.copy(&content.whole(), &[])?;
        let gives = self.add(Guess::Named(tag))?;
        Ok(Ends { takes, gives })
    }

    /// What a function takes and gives of which nothing is known.
    pub(crate) fn unknown(&mut self) -> Result<Ends, Shortage> {
        let takes = self.open()?;
        let gives = self.open()?;
        Ok(Ends { takes, gives })
    }
}
