// What plain code evaluates to.
ghost use Rattle.std.specs.Prelude.{◌≡◌, [], ◌∷◌, ◌++◌, IfSome, Some};
ghost use Rattle.nesl_eval_column_results.specs.Costs.{costs_at, Sums};

use crate::columns::Columns;
use crate::costs::{Costs, raised};
use nesl_eval_columns::Column;
use std::alloc::Allocator;

/// The leaves at the turns of a block, and what they cost.
#[derive(Drop)]
pub struct Found<A: Allocator> {
    pub column: Column<A>,
    pub costs: Costs<A>,
}

/// The values at the turns of a block, and what they cost.
#[derive(Drop)]
pub struct Results<A: Allocator> {
    pub values: Columns<A>,
    pub costs: Costs<A>,
}

/// What was found, with the own 1 of a node.
pub fn entered<A: Allocator>(results: Results<A>) -> Option<Results<A>>
    ensures { IfSome result (λ r. (Sums (costs_at results.costs) (λ k. Some 1) (costs_at r.costs))
        × (r.values ≡ results.values)) }
{
    let Results { values, costs } = results;
    let costs = raised(costs, 1)?;
    Some(Results { values, costs })
}

// Adds values, if there is room.
pub fn keep<A: Allocator>(bindings: &mut Vec<Columns<A>, A>, values: Columns<A>) -> Option<()>
    ensures { IfSome result (λ u. bindings.new.items ≡ bindings.old.items ++ values ∷ []) }
{
    match bindings.push(values) {
        Ok(()) => Some(()),
        Err(_) => None,
    }
}
