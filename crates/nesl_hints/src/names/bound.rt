//! Names that are known.

use crate::names::near::near;
use nesl_eval_top_level::Payload;
use nesl_syntax_tree::tree::{Binding, Exp, Form, Node, Pattern, PatternNode};
use nesl_types::{Context, Top};
use std::alloc::{AllocError, Global};

/// The built-in functions that are called by a name.
const BUILTINS: &[u8] = b"\
not plusp minusp zerop oddp evenp negate abs isqrt btoi char_code code_char rem max min lshift rshift dist index sum \
max_val min_val any all count max_index min_index plus_scan or_scan and_scan flatten partition split bottop take drop \
reverse rotate odd_elts even_elts interleave zip unzip permute rep eql";

/// The fewest bytes of a name that another one is near to.
const FEWEST: usize = 3;

/// The most names that are compared with one that is unknown.
const MOST_COMPARED: usize = 1_000;

// Whether a name that is known is near to this one, of which very short ones are near to none.
fn is_near(name: &[u8], known: &[u8]) -> bool {
    name.len() >= FEWEST && near(name, known)
}

/// The built-in function whose name is near to this one.
pub(crate) fn near_builtin(name: &[u8]) -> Option<&'static [u8]> {
    for known in BUILTINS.split(|byte| *byte == b' ') {
        if is_near(name, known) {
            return Some(known);
        }
    }
    None
}

/// The name of a session that is near to this one, of a function or a datatype where it is called.
pub(crate) fn near_binding<'a>(
    context: &'a Context<Payload>,
    name: &[u8],
    called: bool,
) -> Option<&'a [u8]> {
    for place in 0..context.len().min(MOST_COMPARED) {
        if let Some((known, top, _)) = context.at(place) {
            if is_called(top) == called && is_near(name, known) {
                return Some(known);
            }
        }
    }
    None
}

/// The one of these names that is near to this one.
pub(crate) fn near_local<'a>(locals: &[&'a [u8]], name: &[u8]) -> Option<&'a [u8]> {
    for known in locals.iter().take(MOST_COMPARED) {
        if is_near(name, known) {
            return Some(*known);
        }
    }
    None
}

/// Whether it can be called.
pub(crate) fn is_called(top: &Top) -> bool {
    !matches!(top, Top::Variable(_))
}

/// The names that patterns of a form bind.
pub fn bound_names(alloc: Global, form: &Form) -> Result<Vec<&[u8]>, AllocError> {
    let mut names = Vec::new(alloc);
    match form {
        Form::Eval(exp) | Form::ShowType(exp) | Form::Bind { value: exp, .. } => {
            bound_in_exp(exp, &mut names)?;
        }
        Form::Fun {
            parameter,
            body,
            ..
        } => {
            bound_in_pattern(parameter, &mut names)?;
            bound_in_exp(body, &mut names)?;
        }
        _ => {}
    }
    Ok(names)
}

fn bound_in_pattern<'e>(pattern: &'e Pattern, names: &mut Vec<&'e [u8]>) -> Result<(), AllocError> {
    match &pattern.node {
        PatternNode::Name(name) => {
            names.push(name.as_slice())?;
            Ok(())
        }
        PatternNode::Pair { left, right } => {
            bound_in_pattern(left, names)?;
            bound_in_pattern(right, names)
        }
        PatternNode::Record { part, .. } => bound_in_pattern(part, names),
    }
}

#[cycle(bound)]
fn bound_in_exp<'e>(exp: &'e Exp, names: &mut Vec<&'e [u8]>) -> Result<(), AllocError> {
    match &exp.node {
        Node::Call { argument, .. } => bound_in_exp(argument, names),
        Node::Prefix { operand, .. } => bound_in_exp(operand, names),
        Node::Pair { left, right }
        | Node::Infix { left, right, .. }
        | Node::Index {
            sequence: left,
            index: right,
        }
        | Node::Range {
            from: left,
            to: right,
        } => {
            bound_in_exp(left, names)?;
            bound_in_exp(right, names)
        }
        Node::Choice {
            test: first,
            yes: second,
            no: third,
        }
        | Node::StridedRange {
            from: first,
            to: second,
            stride: third,
        } => {
            bound_in_exp(first, names)?;
            bound_in_exp(second, names)?;
            bound_in_exp(third, names)
        }
        Node::Sequence(items) => bound_in_all(items.as_slice(), names),
        Node::Let { bindings, body } | Node::Each { body, bindings } => {
            bound_by(bindings.as_slice(), names)?;
            bound_in_exp(body, names)
        }
        Node::FilteredEach {
            body,
            bindings,
            filter,
        } => {
            bound_by(bindings.as_slice(), names)?;
            bound_in_exp(body, names)?;
            bound_in_exp(filter, names)
        }
        _ => Ok(()),
    }
}

#[cycle(bound)]
fn bound_in_all<'e>(items: &'e [Exp], names: &mut Vec<&'e [u8]>) -> Result<(), AllocError> {
    for item in items {
        bound_in_exp(item, names)?;
    }
    Ok(())
}

#[cycle(bound)]
fn bound_by<'e>(bindings: &'e [Binding], names: &mut Vec<&'e [u8]>) -> Result<(), AllocError> {
    for binding in bindings {
        bound_in_pattern(&binding.pattern, names)?;
        bound_in_exp(&binding.value, names)?;
    }
    Ok(())
}
