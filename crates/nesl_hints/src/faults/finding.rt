//! The parts of a form.

use nesl_lex::token::Span;
use nesl_syntax_tree::tree::{Binding, Exp, Form, Node};

/// The expression of a form that evaluates one.
pub(crate) fn expression_of(form: &Form) -> Option<&Exp> {
    match form {
        Form::Eval(exp) | Form::Bind { value: exp, .. } => Some(exp),
        _ => None,
    }
}

/// Whether these bytes of a form are an expression, and no type or pattern.
pub(crate) fn is_value(form: &Form, span: Span) -> bool {
    let whole = match form {
        Form::Eval(exp)
        | Form::ShowType(exp)
        | Form::Bind { value: exp, .. }
        | Form::Fun { body: exp, .. } => exp,
        _ => return false,
    };
    match node_at(whole, span) {
        Some(found) => !matches!(&found.node, Node::Element),
        None => false,
    }
}

/// The part of an expression that has these bytes: the outermost one.
#[cycle(node_at)]
pub(crate) fn node_at<'e>(exp: &'e Exp, span: Span) -> Option<&'e Exp> {
    if exp.span == span {
        return Some(exp);
    }
    match &exp.node {
        Node::Call { argument, .. } => node_at(argument, span),
        Node::Prefix { operand, .. } => node_at(operand, span),
        Node::Pair { left, right }
        | Node::Infix { left, right, .. }
        | Node::Index {
            sequence: left,
            index: right,
        }
        | Node::Range {
            from: left,
            to: right,
        } => match node_at(left, span) {
            Some(found) => Some(found),
            None => node_at(right, span),
        },
        Node::Choice {
            test: first,
            yes: second,
            no: third,
        }
        | Node::StridedRange {
            from: first,
            to: second,
            stride: third,
        } => match node_at(first, span) {
            Some(found) => Some(found),
            None => match node_at(second, span) {
                Some(found) => Some(found),
                None => node_at(third, span),
            },
        },
        Node::Sequence(items) => node_in(items.as_slice(), span),
        Node::Let { bindings, body } | Node::Each { body, bindings } => {
            match node_bound(bindings.as_slice(), span) {
                Some(found) => Some(found),
                None => node_at(body, span),
            }
        }
        Node::FilteredEach {
            body,
            bindings,
            filter,
        } => match node_bound(bindings.as_slice(), span) {
            Some(found) => Some(found),
            None => match node_at(filter, span) {
                Some(found) => Some(found),
                None => node_at(body, span),
            },
        },
        _ => None,
    }
}

#[cycle(node_at)]
fn node_in<'e>(items: &'e [Exp], span: Span) -> Option<&'e Exp> {
    for item in items {
        if let Some(found) = node_at(item, span) {
            return Some(found);
        }
    }
    None
}

#[cycle(node_at)]
fn node_bound<'e>(bindings: &'e [Binding], span: Span) -> Option<&'e Exp> {
    for binding in bindings {
        if let Some(found) = node_at(&binding.value, span) {
            return Some(found);
        }
    }
    None
}
