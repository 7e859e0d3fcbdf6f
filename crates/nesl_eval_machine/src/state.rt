//! The state of a machine.

use nesl_eval_nodes::meter::Meter;
use nesl_eval_ops::Ops;
use nesl_eval_rounds::Round;
use nesl_lex::token::Span;
use nesl_values::Value;
use std::alloc::Allocator;

/// What the value of a block is for.
#[derive(Drop)]
pub enum Purpose<'a, A: Allocator> {
    /// It goes on the stack.
    Push,
    /// It is that of a function, which is called with this span, and goes on the stack.
    Return(Span),
    /// It ends a turn.
    Turn(Box<Round<'a, A>, A>),
}

/// Where a machine goes on after a block: its local names have the slots from `base` to `len`, and its stack has this
/// height.
#[derive(Drop)]
pub struct Frame<'a, A: Allocator> {
    pub next: &'a Ops,
    pub base: usize,
    pub len: usize,
    pub height: usize,
    pub levels: u32,
    pub purpose: Purpose<'a, A>,
}

/// What a machine has at hand besides its stack.
#[derive(Drop)]
pub enum Hand<'a, A: Allocator> {
    /// Nothing: it goes on with its code.
    Empty,
    /// A value, which the operations after it take.
    Holds(Value<A>, &'a Ops),
    /// The last value.
    Done(Value<A>),
}

/// A machine: what it does next, the values of local names, the values that wait on the stack, and where it goes on
/// after the block that it is in.
#[derive(Drop)]
pub struct Machine<'a, A: Allocator> {
    /// The bodies of functions, by place; one may be missing.
    pub bodies: &'a [Option<Ops>],
    pub code: &'a Ops,
    pub slots: Vec<Value<A>, A>,
    pub stack: Vec<Value<A>, A>,
    pub frames: Vec<Frame<'a, A>, A>,
    /// Where the slots of the local names begin that the block sees.
    pub base: usize,
    pub levels: u32,
    pub meter: Meter,
    pub alloc: A,
}
