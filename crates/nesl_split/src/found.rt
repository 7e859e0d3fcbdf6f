//! The results of turns.
ghost use Rattle.std.specs.Prelude.{◌≡◌, ℕ, ◌+◌, ◌≤◌, ◌++◌, [], List};
ghost use Rattle.nesl_values.specs.Tree.{ValueTree};
ghost use Rattle.nesl_values.specs.View.{tree_of};
ghost use Rattle.nesl_values_builder.specs.Elements.{elements_of};
ghost use Rattle.nesl_eval_meaning.specs.Out.{Out, beside};
ghost use Rattle.nesl_eval_meaning.specs.Outcome.{place_if_true, body_value};
ghost use Rattle.nesl_eval_nodes.specs.Meets.{Meets};
ghost use Rattle.nesl_eval_nodes.specs.Sides.{Has};
ghost use Rattle.nesl_eval_helpers.specs.Halves.{after_cost, IsWithin};
ghost use Rattle.nesl_split.specs.Finding.{Element, kind_of, IsOf, Are, Adds, of_value};

use nesl_eval_helpers::{Half, join_places, join_values};
use nesl_eval_nodes::meter::{Meter, Stop};
use nesl_eval_nodes::nodes::{add, keep_if, pay, read_truth};
use nesl_values::Value;
use nesl_values_builder::SequenceBuilder;
use std::alloc::Global;

/// The kind of result of turns: the places at which a filter holds, or the values of a body.
#[derive(Clone, Copy)]
pub(crate) enum Wanted {
    Places,
    Values,
}

/// The results of some turns.
#[derive(Drop)]
pub(crate) enum Found {
    Places(Vec<usize>),
    Values(SequenceBuilder),
}

// Keeps the place, if the filter's value there is true.
fn keep_place(kept: &mut Vec<usize>, place: usize, value: Value<Global>) -> Result<(), Stop>
    ensures { (m : Meter) → Meets (λ _ is. kept.new.items ≡ kept.old.items ++ is) m result m
        (place_if_true place (tree_of value)) }
{
    let holds = read_truth(value)?;
    keep_if(kept, place, holds)
}

// Adds the value of a body, whose work is charged.
fn add_value(
    values: &mut SequenceBuilder,
    value: Value<Global>,
    meter: &mut Meter,
) -> Result<(), Stop>
    ensures meets { Meets (λ _ ts. elements_of values.new ≡ elements_of values.old ++ ts) meter.old result meter.new
        (body_value (tree_of value)) }
    ensures spent { meter.new.fuel ≤ meter.old.fuel }
    ensures depth { meter.new.depth ≡ meter.old.depth }
{
    let paid = pay(value, meter)?;
    add(values, paid)
}

impl Found {
    /// An empty result, with room for `room` values.
    pub(crate) fn new(wanted: Wanted, room: usize, alloc: Global) -> Found
        ensures { Are wanted result [] }
    {
        match wanted {
            Wanted::Places => Found::Places(Vec::new(alloc)),
            Wanted::Values => Found::Values(SequenceBuilder::with_room(alloc, room)),
        }
    }

    /// Adds the result of a turn, by the value of its block.
    pub(crate) fn add(
        &mut self,
        place: usize,
        value: Value<Global>,
        meter: &mut Meter,
    ) -> Result<(), Stop>
        ensures kind { kind_of self.new ≡ kind_of self.old }
        ensures meets { (w : Wanted) → IsOf w self.old
            → Meets (Adds w self.old self.new) meter.old result meter.new (of_value w place (tree_of value)) }
        ensures spent { meter.new.fuel ≤ meter.old.fuel }
        ensures depth { meter.new.depth ≡ meter.old.depth }
    {
        match self {
            Found::Places(kept) => keep_place(kept, place, value),
            Found::Values(values) => add_value(values, value, meter),
        }
    }
}

// Returns the places of a result that has places.
fn only_places(found: Result<Found, Stop>) -> Result<Vec<usize>, Stop>
    ensures { (m n : Meter) (o : Out (List ℕ)) → Meets (Are Wanted.Places) m found n o
        → Meets (λ ks is. ks.items ≡ is) m result n o }
{
    match found {
        Ok(Found::Places(places)) => Ok(places),
        Ok(Found::Values(_)) => Err(Stop::Memory),
        Err(stop) => Err(stop),
    }
}

// Returns the values of a result that has values.
fn only_values(found: Result<Found, Stop>) -> Result<SequenceBuilder, Stop>
    ensures { (m n : Meter) (o : Out (List ValueTree)) → Meets (Are Wanted.Values) m found n o
        → Meets Has m result n o }
{
    match found {
        Ok(Found::Values(values)) => Ok(values),
        Ok(Found::Places(_)) => Err(Stop::Memory),
        Err(stop) => Err(stop),
    }
}

fn half_of_places(half: Half<Found>) -> Half<Vec<usize>>
    ensures cost { result.cost ≡ half.cost }
    ensures meets { (m n : Meter) (o : Out (List ℕ)) → Meets (Are Wanted.Places) m half.found n o
        → Meets (λ ks is. ks.items ≡ is) m result.found n o }
{
    let Half { found, cost } = half;
    Half {
        found: only_places(found),
        cost,
    }
}

fn half_of_values(half: Half<Found>) -> Half<SequenceBuilder>
    ensures cost { result.cost ≡ half.cost }
    ensures meets { (m n : Meter) (o : Out (List ValueTree)) → Meets (Are Wanted.Values) m half.found n o
        → Meets Has m result.found n o }
{
    let Half { found, cost } = half;
    Half {
        found: only_values(found),
        cost,
    }
}

/// Joins the results of two halves.
pub(crate) fn join_found(
    wanted: Wanted,
    left: Half<Found>,
    right: Half<Found>,
    meter: &mut Meter,
) -> Result<Found, Stop>
    requires left { IsWithin meter.old left.cost }
    requires right { IsWithin meter.old right.cost }
    ensures meets { (o p : Out (List (Element wanted)))
        → Meets (Are wanted) meter.old left.found (after_cost meter.old left.cost) o
        → Meets (Are wanted) meter.old right.found (after_cost meter.old right.cost) p
        → Meets (Are wanted) meter.old result meter.new (beside o p) }
    ensures spent { meter.new.fuel + meter.new.depth ≤ meter.old.fuel + meter.old.depth }
{
    match wanted {
        Wanted::Places => {
            let places = join_places(half_of_places(left), half_of_places(right), meter)?;
            Ok(Found::Places(places))
        }
        Wanted::Values => {
            let values = join_values(half_of_values(left), half_of_values(right), meter)?;
            Ok(Found::Values(values))
        }
    }
}
