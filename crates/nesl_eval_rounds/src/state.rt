//! What a round is.

use nesl_eval_ops::Body;
use nesl_values::Value;
use nesl_values_builder::SequenceBuilder;
use std::alloc::Allocator;

/// The places at which a round of an apply-to-each has its turns: all of a number, or those that a filter kept.
#[derive(Drop)]
pub enum Chosen<A: Allocator> {
    All(usize),
    These(Vec<usize, A>),
}

/// A round of an apply-to-each: a filter or a body, with a turn at each place.
#[derive(Drop)]
pub struct Round<'a, A: Allocator> {
    pub block: &'a Body,
    /// The body whose round comes after that of a filter.
    pub body: Option<&'a Body>,
    pub sources: Vec<Value<A>, A>,
    pub chosen: Chosen<A>,
    /// How many turns were begun and ended.
    pub turns: usize,
    /// The place of the turn that is on.
    pub place: usize,
    /// The depth before the round, and the greatest depth of its turns so far.
    pub start: u64,
    pub most: u64,
    /// The places where a filter holds, so far, and the values of a body.
    pub kept: Vec<usize, A>,
    pub values: SequenceBuilder<A>,
}
