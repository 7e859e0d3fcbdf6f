//! Where the values of local names are.

ghost use Rattle.std.specs.Prelude.{◌≡◌, [], IfOk, suc};
ghost use Rattle.nesl_eval_code.specs.Means.{spot, IsElementSpot};
ghost use Rattle.nesl_eval_code.specs.Resolving.{layers_of, FindsLocal};

use crate::code::Step;
use crate::frames::{Frame, Parameter};
use crate::names::NamePlace;
use std::alloc::{AllocError, Global};

/// The patterns whose names are in the frames round an expression, those of the newest frame first.
#[derive(Clone, Copy)]
pub(crate) enum Layers<'a> {
    /// No frame.
    Top,
    /// The parameter of a function.
    Parameter(&'a Parameter<'a>),
    /// The bindings of a `let` so far.
    Let(&'a Frame<'a>, &'a Layers<'a>),
    /// The binders of an apply-to-each.
    Row(&'a Frame<'a>, &'a Layers<'a>),
}

/// How many frames up, at that index of the frame, and from there by these steps.
#[derive(Drop)]
pub(crate) struct LocalPlace {
    pub up: usize,
    pub index: usize,
    pub steps: Vec<Step>,
}

/// Where the value of the name is, if it is a local one. It recurs over the frames.
pub(crate) fn place_of_local(
    alloc: Global,
    layers: &Layers<'_>,
    name: &[u8],
) -> Result<Option<LocalPlace>, AllocError>
    ensures { IfOk result (FindsLocal (layers_of layers.now) name.now) }
{
    match layers {
        Layers::Top => Ok(None),
        Layers::Parameter(parameter) => match parameter.find(alloc, name)? {
            Some(place) => Ok(Some(in_newest(place))),
            None => Ok(None),
        },
        Layers::Let(frame, outer) => match frame.find(alloc, name)? {
            Some(place) => Ok(Some(in_newest(place))),
            None => match place_of_local(alloc, *outer, name)? {
                Some(place) => Ok(Some(one_up(place)?)),
                None => Ok(None),
            },
        },
        Layers::Row(frame, outer) => match frame.find(alloc, name)? {
            Some(place) => Ok(Some(in_newest(place))),
            None => match place_of_local(alloc, *outer, name)? {
                Some(place) => Ok(Some(one_up(place)?)),
                None => Ok(None),
            },
        },
    }
}

/// The place in the newest frame.
fn in_newest(place: NamePlace) -> LocalPlace
    ensures up { result.up ≡ 0 }
    ensures index { result.index ≡ place.index }
    ensures steps { result.steps.items ≡ place.steps.items }
{
    let NamePlace { index, steps } = place;
    LocalPlace {
        up: 0,
        index,
        steps,
    }
}

/// The place as it is seen from a frame further in. There are fewer frames than memory has bytes.
fn one_up(place: LocalPlace) -> Result<LocalPlace, AllocError>
    ensures up { IfOk result (λ r. r.up ≡ suc place.up) }
    ensures index { IfOk result (λ r. r.index ≡ place.index) }
    ensures steps { IfOk result (λ r. r.steps.items ≡ place.steps.items) }
{
    let LocalPlace { up, index, steps } = place;
    let up = next(up)?;
    Ok(LocalPlace { up, index, steps })
}

fn next(up: usize) -> Result<usize, AllocError>
    ensures { IfOk result (λ r. r ≡ suc up) }
{
    match up.checked_add(1) {
        Some(next) => Ok(next),
        None => Err(AllocError),
    }
}

/// How many frames up the row of the innermost apply-to-each is, or where no frame is, where there is none.
pub(crate) fn element_up(layers: &Layers<'_>) -> Result<usize, AllocError>
    ensures { IfOk result (λ up. IsElementSpot (layers_of layers.now) (spot up 0 [])) }
{
    match layers {
        Layers::Top => Ok(0),
        Layers::Parameter(_) => Ok(1),
        Layers::Let(_, outer) => next(element_up(*outer)?),
        Layers::Row(_, _) => Ok(0),
    }
}
