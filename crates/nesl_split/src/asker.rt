//! What is known of an interval before it asks for a helper.
ghost use Rattle.std.specs.Prelude.{◌≡◌, ◌<◌, ◌≤◌};
ghost use Rattle.nesl_split.specs.Intervals.{AreIn};

use crate::turns::{Interval, Turns};
use nesl_eval_helpers::Asker;
use nesl_eval_ops::{Body, Callee, Ops};
use nesl_lex::token::Span;
use nesl_values::{Element, Value};
use std::alloc::Global;

/// The number of operations at the start of a block by which blocks are distinguished.
const MARKED_OPS: usize = 3;

/// The state of a machine at an interval: the fuel that is left, the blocks that haven't ended, and the turns that are
/// done.
#[derive(Clone, Copy)]
pub(crate) struct Moment {
    pub fuel: u64,
    pub height: usize,
    pub taken: usize,
}

/// Describes an interval of two or more turns for `Helpers::advise`.
pub(crate) fn asker_of<R, H, G, T>(
    interval: &Interval<'_, R, H, G, T>,
    turns: Turns,
    moment: Moment,
) -> Asker
    requires turns { AreIn turns interval.now }
    requires two { turns.from < turns.to }
{
    let first = size_at(interval, interval.places.at(turns.from));
    let last = size_at(interval, interval.places.at(turns.to - 1));
    let count = turns.count() as u64;
    let size = first.saturating_add(last).saturating_mul(count) / 2;
    Asker {
        mark: mark_of(interval.block),
        size,
        least: if count == 2 {
            first.min(last)
        } else {
            size / 2
        },
        fuel: moment.fuel,
        height: moment.height,
        levels: u64::from(interval.room.levels),
        taken: moment.taken,
    }
}

// Counts the elements at a place, including nested ones.
fn size_at<R, H, G, T>(interval: &Interval<'_, R, H, G, T>, place: usize) -> u64 {
    let mut size = 1;
    for source in interval.sources {
        size = len_at(source, place).saturating_add(size);
    }
    size
}

// Counts the elements of the sequence at a place, if there is one.
fn len_at(source: &Value<Global>, place: usize) -> u64 {
    let items = source.items();
    if place >= items.len() {
        return 0;
    }
    match items.at(place) {
        Element::Node(value) => value.sequence_len().unwrap_or(0) as u64,
        _ => 0,
    }
}

// Returns a number for a block, made from the places of its first operations and from the functions it calls.
fn mark_of(block: &Body) -> u64 {
    let mut mark = 0;
    let mut ops = block.ops();
    for _ in 0..MARKED_OPS {
        mark = mixed(mark, number_of(ops));
        match next_of(ops) {
            Some(next) => ops = next,
            None => break,
        }
    }
    mark
}

fn mixed(one: u64, other: u64) -> u64 {
    one.wrapping_mul(31).wrapping_add(other)
}

fn number_of_span(span: Span) -> u64 {
    mixed(span.start as u64, span.end as u64)
}

// Returns a number for an operation.
fn number_of(ops: &Ops) -> u64 {
    match ops {
        Ops::Push { leaf, .. } => number_of_span(leaf.span.whole()),
        Ops::Enter { span, .. } => number_of_span(*span),
        Ops::OfLeaf { node, .. } => number_of_span(node.span),
        Ops::OfLeaves { node, .. } => number_of_span(node.span.whole()),
        Ops::OfMany { node, .. } => number_of_span(node.span),
        Ops::Call { span, callee, .. } => mixed(number_of_callee(callee), number_of_span(*span)),
        Ops::Each { span, .. } => number_of_span(*span),
        Ops::Filtered { span, .. } => number_of_span(*span),
        _ => 0,
    }
}

fn number_of_callee(callee: &Callee) -> u64 {
    match callee {
        Callee::Placed(place) => *place as u64,
        Callee::Named(_) => 0,
    }
}

// Returns the operation after this one, if there is one.
fn next_of(ops: &Ops) -> Option<&Ops> {
    match ops {
        Ops::Push { next, .. } => Some(next.ops()),
        Ops::Enter { next, .. } => Some(next.ops()),
        Ops::OfLeaf { next, .. } => Some(next.ops()),
        Ops::OfLeaves { next, .. } => Some(next.ops()),
        Ops::OfMany { next, .. } => Some(next.ops()),
        Ops::Call { next, .. } => Some(next.ops()),
        _ => None,
    }
}
