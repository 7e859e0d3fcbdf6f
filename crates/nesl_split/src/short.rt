//! Copies of short values.
ghost use Rattle.std.specs.Prelude.{◌≡◌, IfSome};
ghost use Rattle.nesl_values.specs.View.{tree_of};

use nesl_values::Value;
use std::alloc::Global;

// How many nodes are copied at most. That takes a few microseconds, and a helper's half takes hundreds at least.
const SHORT: u64 = 256;

/// How many nodes may still be copied.
#[derive(Drop)]
pub(crate) struct Allowance {
    nodes: u64,
}

impl Allowance {
    pub(crate) fn new() -> Allowance {
        Allowance { nodes: SHORT }
    }
}

/// Copies a value, if it is short and there is memory.
pub(crate) fn copy_if_short(
    value: &Value<Global>,
    allowance: &mut Allowance,
    alloc: Global,
) -> Option<Value<Global>>
    ensures { IfSome result (λ v. tree_of v ≡ tree_of value.now) }
{
    let nodes = value.nodes();
    if nodes > allowance.nodes {
        return None;
    }
    allowance.nodes -= nodes;
    value.copy_into(alloc).ok()
}
