//! The number of nodes of expressions, counted only as far as there is room.

ghost use Rattle.std.specs.Prelude.{◌≡◌, ◌+◌, ◌<◌, ◌^◌, MatchOption};
ghost use Rattle.nesl_syntax_tree.specs.Views.{tree_of, trees_in, binders_in};
ghost use Rattle.nesl_session_bindings.specs.Meanings.{nodes_in};
ghost use Rattle.nesl_session_bindings.specs.Nodes.{expression_nodes, nodes_of_all, nodes_bound};

use nesl_syntax_tree::tree::{Binding, Exp, Node};

/// The number of nodes of the expression.
pub fn nodes(exp: &Exp) -> u64
    requires { nodes_in (tree_of exp.now) < 2 ^ 64 }
    ensures { result ≡ nodes_in (tree_of exp.now) }
{
    match left_after(exp, u64::MAX) {
        Some(left) => u64::MAX - left,
        None => unreachable!(),
    }
}

/// What is left of `room` after the nodes of the expression, or `None` if they are more.
#[inline(always)]
pub fn left_after(exp: &Exp, room: u64) -> Option<u64>
    ensures { MatchOption result (room < nodes_in (tree_of exp.now))
        (λ left. left + nodes_in (tree_of exp.now) ≡ room) }
{
    room_left(exp, room)
}

/// The same, by the sum of the parts. The most frequent leaves are counted inline.
#[cycle(rooms)]
#[inline(always)]
fn room_left(exp: &Exp, room: u64) -> Option<u64>
    ensures { MatchOption result (room < expression_nodes (tree_of exp.now))
        (λ left. left + expression_nodes (tree_of exp.now) ≡ room) }
{
    match &exp.node {
        Node::Number(_) => {
            let left = room.checked_sub(1)?;
            Some(left)
        }
        Node::Variable(_) => {
            let left = room.checked_sub(1)?;
            Some(left)
        }
        _ => room_left_by_node(exp, room),
    }
}

/// What is left of `room` after the nodes of an expression of any kind, or `None` if they are more.
#[cycle(rooms)]
fn room_left_by_node(exp: &Exp, room: u64) -> Option<u64>
    ensures { MatchOption result (room < expression_nodes (tree_of exp.now))
        (λ left. left + expression_nodes (tree_of exp.now) ≡ room) }
{
    let room = room.checked_sub(1)?;
    match &exp.node {
        Node::Number(_) => Some(room),
        Node::Truth(_) => Some(room),
        Node::Character(_) => Some(room),
        Node::Text(_) => Some(room),
        Node::Variable(_) => Some(room),
        Node::Call { argument, .. } => room_left(argument, room),
        Node::Pair {
            left: first,
            right: second,
        } => room_left(second, room_left(first, room)?),
        Node::Prefix { operand, .. } => room_left(operand, room),
        Node::Infix {
            left: first,
            right: second,
            ..
        } => room_left(second, room_left(first, room)?),
        Node::Index {
            sequence: first,
            index: second,
        } => room_left(second, room_left(first, room)?),
        Node::Choice {
            test: first,
            yes: second,
            no: third,
        } => room_left(third, room_left(second, room_left(first, room)?)?),
        Node::Sequence(items) => room_left_by_all(items.as_slice(), room),
        Node::Empty(_) => Some(room),
        Node::Range {
            from: first,
            to: second,
        } => room_left(second, room_left(first, room)?),
        Node::StridedRange {
            from: first,
            to: second,
            stride: third,
        } => room_left(third, room_left(second, room_left(first, room)?)?),
        Node::Let { bindings, body } => {
            let room = room_left_bound(bindings.as_slice(), room)?;
            room_left(body, room)
        }
        Node::Each { body, bindings } => {
            let room = room_left(body, room)?;
            room_left_bound(bindings.as_slice(), room)
        }
        Node::FilteredEach {
            body,
            bindings,
            filter,
        } => {
            let room = room_left(body, room)?;
            let room = room_left_bound(bindings.as_slice(), room)?;
            room_left(filter, room)
        }
        Node::Element => Some(room),
    }
}

/// What is left of `room` after the nodes of all these expressions, or `None` if they are more.
#[cycle(rooms)]
fn room_left_by_all(items: &[Exp], room: u64) -> Option<u64>
    ensures { MatchOption result (room < nodes_of_all (trees_in items.now))
        (λ left. left + nodes_of_all (trees_in items.now)
        ≡ room) }
{
    let mut left = room;
    for item in items {
        left = room_left(item, left)?;
    }
    Some(left)
}

/// What is left of `room` after the nodes of the values that patterns are bound to, or `None` if they are more.
#[cycle(rooms)]
fn room_left_bound(bindings: &[Binding], room: u64) -> Option<u64>
    ensures { MatchOption result (room < nodes_bound (binders_in bindings.now))
        (λ left. left + nodes_bound (binders_in bindings.now) ≡ room) }
{
    let mut left = room;
    for binding in bindings {
        left = room_left(&binding.value, left)?;
    }
    Some(left)
}
