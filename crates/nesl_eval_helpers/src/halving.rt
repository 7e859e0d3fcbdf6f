//! Evaluates an interval of places in two halves, and joins their results.
ghost use Rattle.std.specs.Prelude.{◌≡◌, ℕ, ◌+◌, ◌-◌, ◌≤◌, List, max};
ghost use Rattle.nesl_values.specs.Tree.{ValueTree};
ghost use Rattle.nesl_eval_meaning.specs.Out.{Out, beside};
ghost use Rattle.nesl_eval_nodes.specs.Meets.{Meets};
ghost use Rattle.nesl_eval_nodes.specs.Sides.{Has};
ghost use Rattle.nesl_eval_helpers.specs.Halves.{after_cost, IsWithin, Judges};

use nesl_eval_nodes::meter::{Meter, Stop};
use nesl_scalars::Cost;
use nesl_values_builder::SequenceBuilder;

/// The result of a half, which began with the whole fuel, and what it cost.
#[derive(Drop)]
pub struct Half<V> {
    pub found: Result<V, Stop>,
    pub cost: Cost,
}

/// Returns the meter for a half. Both halves begin with the whole fuel, and what they used is checked after both have
/// ended.
pub fn begin_meter(fuel: u64) -> Meter
    ensures fuel { result.fuel ≡ fuel }
    ensures depth { result.depth ≡ 0 }
{
    Meter::new(fuel)
}

/// Returns the work and the depth between two readings of a meter.
pub fn cost_since(begun: Meter, meter: Meter) -> Cost
    ensures work { result.work ≡ begun.fuel - meter.fuel }
    ensures depth { result.depth ≡ meter.depth - begun.depth }
{
    Cost {
        work: begun.fuel().saturating_sub(meter.fuel()),
        depth: meter.depth().saturating_sub(begun.depth()),
    }
}

/// Joins the places of two halves. The left half decides if it stopped. The right one's work is checked after the left
/// one's, so the result is as if they had run in turn.
pub fn join_places(
    left: Half<Vec<usize>>,
    right: Half<Vec<usize>>,
    meter: &mut Meter,
) -> Result<Vec<usize>, Stop>
    requires left { IsWithin meter.old left.cost }
    requires right { IsWithin meter.old right.cost }
    ensures meets { (o p : Out (List ℕ))
        → Meets (λ ks is. ks.items ≡ is) meter.old left.found (after_cost meter.old left.cost) o
        → Meets (λ ks is. ks.items ≡ is) meter.old right.found (after_cost meter.old right.cost) p
        → Meets (λ ks is. ks.items ≡ is) meter.old result meter.new (beside o p) }
    ensures spent { meter.new.fuel + meter.new.depth ≤ meter.old.fuel + meter.old.depth }
{
    let depth = meter.depth() + deeper(left.cost, right.cost);
    meter.charge(left.cost.work)?;
    let mut places = left.found?;
    let more = judge(right, meter)?;
    match places.extend_from_slice(more.as_slice()) {
        Ok(()) => {
            meter.set_depth(depth);
            Ok(places)
        }
        Err(_) => Err(Stop::Memory),
    }
}

/// Joins the values of two halves, like `join_places`.
pub fn join_values(
    left: Half<SequenceBuilder>,
    right: Half<SequenceBuilder>,
    meter: &mut Meter,
) -> Result<SequenceBuilder, Stop>
    requires left { IsWithin meter.old left.cost }
    requires right { IsWithin meter.old right.cost }
    ensures meets { (o p : Out (List ValueTree))
        → Meets Has meter.old left.found (after_cost meter.old left.cost) o
        → Meets Has meter.old right.found (after_cost meter.old right.cost) p
        → Meets Has meter.old result meter.new (beside o p) }
    ensures spent { meter.new.fuel + meter.new.depth ≤ meter.old.fuel + meter.old.depth }
{
    let depth = meter.depth() + deeper(left.cost, right.cost);
    meter.charge(left.cost.work)?;
    let mut values = left.found?;
    let more = judge(right, meter)?;
    match values.append(more) {
        Ok(()) => {
            meter.set_depth(depth);
            Ok(values)
        }
        Err(_) => Err(Stop::Memory),
    }
}

// Returns the depth of two halves that run in parallel.
fn deeper(left: Cost, right: Cost) -> u64
    ensures { result ≡ max left.depth right.depth }
{
    left.depth.max(right.depth)
}

// Returns the right half's result if the fuel that is left suffices for its work. A half that was out of fuel or out of
// memory by itself stays so.
fn judge<V: Drop>(right: Half<V>, meter: &mut Meter) -> Result<V, Stop>
    ensures judges { Judges right.found right.cost.work meter.old result meter.new }
    ensures spent { meter.new.fuel + meter.new.depth ≤ meter.old.fuel + meter.old.depth }
{
    let Half { found, cost } = right;
    match found {
        Ok(list) => {
            meter.charge(cost.work)?;
            Ok(list)
        }
        Err(Stop::Fault(trap, span)) => {
            meter.charge(cost.work)?;
            Err(Stop::Fault(trap, span))
        }
        Err(Stop::Over) => Err(Stop::Over),
        Err(Stop::Memory) => Err(Stop::Memory),
        Err(Stop::Stuck) => Err(Stop::Stuck),
    }
}
