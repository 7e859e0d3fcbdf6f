// The values of bodies, and the truth values of filters.
ghost use Rattle.std.specs.Prelude.{IfSome};
ghost use Rattle.nesl_eval_code.specs.Run.{run};
ghost use Rattle.nesl_eval_column_results.specs.Blocks.{IsWithin};
ghost use Rattle.nesl_eval_column_results.specs.Frames.{frames_in};
ghost use Rattle.nesl_eval_plain.specs.Found.{Finds, FindsValues};

use crate::parts::{column, results};
use nesl_eval_code::Code;
use nesl_eval_column_results::block::Block;
use nesl_eval_column_results::columns::nodes;
use nesl_eval_column_results::costs::Costs;
use nesl_eval_column_results::found::{Found, Results};
use nesl_eval_column_results::reach::at_root;
use nesl_eval_column_results::scopes::Scopes;
use nesl_eval_column_results::values::{Values, values_of};
use nesl_eval_nodes::held::Tops;
use std::alloc::Allocator;

/// The values of a body at the turns of a block, how many nodes each of them has, and what they cost.
#[derive(Drop)]
pub struct Bodies<A: Allocator> {
    pub values: Values<A>,
    pub nodes: u64,
    pub costs: Costs<A>,
}

/// What a body evaluates to, if it is plain and has a value at each turn.
pub fn bodies_at<'x, A: Allocator + Copy, T: Tops<A>>(
    block: &'x Block<'x, A, T>,
    code: &Code,
    levels: u32,
) -> Option<Bodies<A>>
    requires { IsWithin block.now }
    ensures { let tb = T.table block.now.tops.now in IfSome result
        (FindsValues (λ fs. run levels tb fs code.now) (frames_in block.now Scopes.Rows)) }
{
    let Results { values, costs } = results(block, &Scopes::Rows, code, at_root(levels))?;
    let nodes = nodes(&values)?;
    let count = block.to - block.from;
    let values = values_of(values, count, *block.alloc)?;
    if values.len() != count {
        return None;
    }
    Some(Bodies {
        values,
        nodes,
        costs,
    })
}

/// What a filter evaluates to, if it is plain and has a leaf at each turn.
pub fn filter_at<'x, A: Allocator + Copy, T: Tops<A>>(
    block: &'x Block<'x, A, T>,
    code: &Code,
    levels: u32,
) -> Option<Found<A>>
    requires { IsWithin block.now }
    ensures { let tb = T.table block.now.tops.now in IfSome result
        (Finds (λ fs. run levels tb fs code.now) (frames_in block.now Scopes.Rows)) }
{
    column(block, &Scopes::Rows, code, at_root(levels))
}
