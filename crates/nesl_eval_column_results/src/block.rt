// A block of places of an apply-to-each.

use nesl_eval_nodes::places::Places;
use nesl_eval_nodes::scope::Scope;
use nesl_values::Value;
use std::alloc::Allocator;

/// The places of an apply-to-each in the turns from `from` to before `to`, and what the code there sees: `values` are
/// the sequences whose elements it names, one of each at each place.
#[derive_where(Clone, Copy)]
pub struct Block<'x, A: Allocator, T> {
    pub tops: &'x T,
    pub scope: &'x Scope<'x, A>,
    pub values: &'x [Value<A>],
    pub places: Places<'x>,
    pub from: usize,
    pub to: usize,
    pub alloc: &'x A,
}
