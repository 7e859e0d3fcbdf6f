//! Which functions have to keep their types when a name is defined again: those that refer to it.

ghost use Rattle.std.specs.Prelude.{◌≡◌, ◌||◌};
ghost use Rattle.nesl_syntax_tree.specs.Views.{tree_of, trees_in, binders_in, pattern_tree};
ghost use Rattle.nesl_eval_sound.specs.Refers.{binds, some_binds, refers, any_refers, bindings_refer, drawn_refers};
ghost use Rattle.nesl_eval_sound.specs.Refers.{body_refers};

use nesl_syntax_tree::tree::{Binding, Exp, Node, Pattern, PatternNode};

/// Whether a function with this parameter and this body refers to the name.
pub fn refers_to(name: &[u8], parameter: &Pattern, body: &Exp) -> bool
    ensures { result ≡ body_refers name.now (pattern_tree parameter.now) (tree_of body.now) }
{
    uses(name, has_name(name, parameter), body)
}

/// Whether the pattern binds the name.
fn has_name(name: &[u8], pattern: &Pattern) -> bool
    ensures { result ≡ binds name.now (pattern_tree pattern.now) }
{
    match &pattern.node {
        PatternNode::Name(own) => name == own.as_slice(),
        PatternNode::Pair {
            left: first,
            right: second,
        } => has_name(name, first) || has_name(name, second),
        PatternNode::Record { part: held, .. } => has_name(name, held),
    }
}

/// Whether the name is hidden once the binders' names are in scope too.
fn is_hidden_by(name: &[u8], hidden: bool, bindings: &[Binding]) -> bool
    ensures { result ≡ (hidden || some_binds name.now (binders_in bindings.now)) }
{
    let mut hides = hidden;
    for binding in bindings {
        hides = hides || has_name(name, &binding.pattern);
    }
    hides
}

/// Whether the expression refers to the name. `hidden` is whether a local name hides it.
#[cycle(uses)]
fn uses(name: &[u8], hidden: bool, exp: &Exp) -> bool
    ensures { result ≡ refers name.now hidden (tree_of exp.now) }
{
    match &exp.node {
        Node::Number(_) => false,
        Node::Truth(_) => false,
        Node::Character(_) => false,
        Node::Text(_) => false,
        Node::Variable(own) => name == own.as_slice() && !hidden,
        Node::Call {
            name: own,
            argument,
        } => name == own.as_slice() || uses(name, hidden, argument),
        Node::Pair {
            left: first,
            right: second,
        } => uses(name, hidden, first) || uses(name, hidden, second),
        Node::Prefix { operand, .. } => uses(name, hidden, operand),
        Node::Infix {
            left: first,
            right: second,
            ..
        } => uses(name, hidden, first) || uses(name, hidden, second),
        Node::Index {
            sequence: first,
            index: second,
        } => uses(name, hidden, first) || uses(name, hidden, second),
        Node::Choice {
            test: first,
            yes: second,
            no: third,
        } => uses(name, hidden, first) || uses(name, hidden, second) || uses(name, hidden, third),
        Node::Sequence(items) => any_uses(name, hidden, items.as_slice()),
        Node::Empty(_) => false,
        Node::Range {
            from: first,
            to: second,
        } => uses(name, hidden, first) || uses(name, hidden, second),
        Node::StridedRange {
            from: first,
            to: second,
            stride: third,
        } => uses(name, hidden, first) || uses(name, hidden, second) || uses(name, hidden, third),
        Node::Let { bindings, body } => {
            let bindings = bindings.as_slice();
            let inside = is_hidden_by(name, hidden, bindings);
            bindings_use(name, hidden, bindings) || uses(name, inside, body)
        }
        Node::Each {
            body,
            bindings: binders,
        } => {
            let binders = binders.as_slice();
            let inside = is_hidden_by(name, hidden, binders);
            drawn_use(name, hidden, binders) || uses(name, inside, body)
        }
        Node::FilteredEach {
            body,
            bindings: binders,
            filter,
        } => {
            let binders = binders.as_slice();
            let inside = is_hidden_by(name, hidden, binders);
            if drawn_use(name, hidden, binders) {
                return true;
            }
            uses(name, inside, body) || uses(name, inside, filter)
        }
        Node::Element => false,
    }
}

/// Whether one of the expressions refers to the name.
#[cycle(uses)]
fn any_uses(name: &[u8], hidden: bool, items: &[Exp]) -> bool
    ensures { result ≡ any_refers name.now hidden (trees_in items.now) }
{
    for item in items {
        if uses(name, hidden, item) {
            return true;
        }
    }
    false
}

/// Whether a value of a `let` refers to the name. Each value sees the names before it.
#[cycle(uses)]
fn bindings_use(name: &[u8], hidden: bool, bindings: &[Binding]) -> bool
    ensures { result ≡ bindings_refer name.now hidden (binders_in bindings.now) }
{
    let mut hides = hidden;
    for binding in bindings {
        if uses(name, hides, &binding.value) {
            return true;
        }
        hides = hides || has_name(name, &binding.pattern);
    }
    false
}

/// Whether a sequence of an apply-to-each refers to the name. Its binders hide nothing there.
#[cycle(uses)]
fn drawn_use(name: &[u8], hidden: bool, binders: &[Binding]) -> bool
    ensures { result ≡ drawn_refers name.now hidden (binders_in binders.now) }
{
    for binder in binders {
        if uses(name, hidden, &binder.value) {
            return true;
        }
    }
    false
}
