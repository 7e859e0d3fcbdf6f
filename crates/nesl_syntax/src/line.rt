// A line whose parts lie on the heap.

ghost use Rattle.std.specs.Prelude.{◌≡◌, option_map};
ghost use Rattle.nesl_syntax_tree.specs.Views.{line_of, signature_tree};
ghost use Rattle.nesl_syntax.specs.Given.{line_tree, boxed_signature};

use nesl_syntax_tree::tree::{Exp, Form, Pattern, Signature, TypeExp};

/// A form whose parts lie on the heap. A form itself is large, and each function that hands one on copies it: so it is
/// made once, at the end.
#[derive(Drop)]
pub enum Line {
    Nothing,
    Fun {
        name: Vec<u8>,
        parameter: Box<Pattern>,
        signature: Option<Box<Signature>>,
        body: Box<Exp>,
    },
    Datatype {
        name: Vec<u8>,
        content: Box<TypeExp>,
    },
    Bind {
        name: Vec<u8>,
        value: Box<Exp>,
    },
    Eval(Box<Exp>),
    ShowNames,
    ShowBudget,
    ShowType(Box<Exp>),
}

// A signature in its place.
fn signature_of(signature: Option<Box<Signature>>) -> Option<Signature>
    ensures { option_map signature_tree result ≡ option_map boxed_signature signature }
{
    match signature {
        Some(signature) => Some(Box::into_inner(signature)),
        None => None,
    }
}

/// The form with its parts in their places.
pub fn form_of(line: Line) -> Form
    ensures { line_of result ≡ line_tree line }
{
    match line {
        Line::Nothing => Form::Nothing,
        Line::Fun {
            name,
            parameter,
            signature,
            body,
        } => Form::Fun {
            name,
            parameter: Box::into_inner(parameter),
            signature: signature_of(signature),
            body: Box::into_inner(body),
        },
        Line::Datatype { name, content } => Form::Datatype {
            name,
            content: Box::into_inner(content),
        },
        Line::Bind { name, value } => Form::Bind {
            name,
            value: Box::into_inner(value),
        },
        Line::Eval(exp) => Form::Eval(Box::into_inner(exp)),
        Line::ShowNames => Form::ShowNames,
        Line::ShowBudget => Form::ShowBudget,
        Line::ShowType(exp) => Form::ShowType(Box::into_inner(exp)),
    }
}
