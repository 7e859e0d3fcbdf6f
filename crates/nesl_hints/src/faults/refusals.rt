//! Evaluations that a function refuses.

use crate::faults::asked::Asked;
use crate::faults::effort::Effort;
use crate::faults::finding::{expression_of, node_at};
use crate::faults::inside::{Unfolded, unfold_calls};
use crate::faults::values::value_of;
use nesl_builtins::named;
use nesl_hints_tokens::{Filling, Hint, Sentence, bytes_of, quoted, said_of_word};
use nesl_hints_types::sign_of;
use nesl_lex::token::Span;
use nesl_session::{Fault, Stop};
use nesl_syntax_tree::tree::{Exp, Form, Node, Operator, Prefix};
use std::alloc::AllocError;

// Where an evaluation was refused, of those that a function refuses.
fn stop_of(fault: Fault) -> Option<Stop> {
    match fault {
        Fault::Overflow(stop)
        | Fault::Division(stop)
        | Fault::Range(stop)
        | Fault::Code(stop)
        | Fault::Length(stop)
        | Fault::Empty(stop)
        | Fault::Permutation(stop)
        | Fault::Count(stop)
        | Fault::Stride(stop)
        | Fault::Deep(stop)
        | Fault::Large(stop) => Some(stop),
        _ => None,
    }
}

/// An evaluation was refused.
pub(crate) fn refused(asked: &Asked<'_>, form: &Form, fault: Fault) -> Result<Hint, AllocError> {
    let Some(stop) = stop_of(fault) else {
        return asked.whole("there is no room for what this would be");
    };
    let mut effort = Effort::whole();
    let inside = match fault {
        Fault::Deep(_) => None,
        _ => unfold_calls(asked, &mut effort, form, stop.span, fault)?,
    };
    let sentence = match inside {
        Some(inside) => inside_sentence(asked, &inside, fault),
        None => outside_sentence(asked, &mut effort, form, stop.span, fault),
    };
    Ok(sentence?.at(stop.span))
}

// The part of a form's expression that has these bytes.
fn part_at(form: &Form, place: Span) -> Option<&Exp> {
    node_at(expression_of(form)?, place)
}

// What is said of a part of the form.
fn outside_sentence(
    asked: &Asked<'_>,
    effort: &mut Effort,
    form: &Form,
    place: Span,
    fault: Fault,
) -> Result<Sentence, AllocError> {
    let Some(part) = part_at(form, place) else {
        return Sentence::of(asked.alloc, said(fault), &[]);
    };
    let mut sentence = Sentence::of(asked.alloc, "", &[])?;
    put_part(asked, effort, &mut sentence, fault, part)?;
    Ok(sentence)
}

// Adds what is said of a part, and of its values.
fn put_part(
    asked: &Asked<'_>,
    effort: &mut Effort,
    sentence: &mut Sentence,
    fault: Fault,
    part: &Exp,
) -> Result<(), AllocError> {
    said_of(fault, part).add_to(sentence)?;
    put_values(asked, effort, sentence, fault, part)
}

// What is said of a part of a called function's body.
fn inside_sentence(
    asked: &Asked<'_>,
    inside: &Unfolded,
    fault: Fault,
) -> Result<Sentence, AllocError> {
    let whole = bytes_of(inside.text.as_slice(), inside.place);
    let part = quoted(inside.text.as_slice(), inside.place);
    let front = if part.len() < whole.len() {
        "in `{function}`, at `{part} ..`: "
    } else {
        "in `{function}`, at `{part}`: "
    };
    let remark = match part_at(&inside.form, inside.place) {
        Some(found) => said_of(fault, found),
        None => plain(said(fault)),
    };
    let fillings = [
        Filling("function", inside.function.as_slice()),
        Filling("part", part),
        Filling("name", remark.name),
    ];
    Sentence::of_all(
        asked.alloc,
        &[front, remark.front(), remark.text],
        &fillings,
    )
}

/// What is said of a part, and the name or sign of its function, which is empty where there is none.
#[derive(Clone, Copy)]
struct Remark<'e> {
    name: &'e [u8],
    text: &'static str,
}

impl Remark<'_> {
    // What stands before the text.
    fn front(&self) -> &'static str {
        if self.name.is_empty() {
            ""
        } else {
            "`{name}`: "
        }
    }

    fn add_to(&self, sentence: &mut Sentence) -> Result<(), AllocError> {
        sentence.add(self.front(), &[Filling("name", self.name)])?;
        sentence.add(self.text, &[])
    }
}

// What is said of a part without a name or sign.
fn plain(text: &'static str) -> Remark<'static> {
    Remark { name: b"", text }
}

// What is said of a part with a name or sign.
fn with_name<'e>(name: &'e [u8], text: &'static str) -> Remark<'e> {
    Remark { name, text }
}

// What is said of a part.
fn said_of(fault: Fault, part: &Exp) -> Remark<'_> {
    if let Fault::Large(_) | Fault::Deep(_) = fault {
        return plain(said(fault));
    }
    match &part.node {
        Node::Each { .. } | Node::FilteredEach { .. } => {
            plain("the sequences of an apply-to-each are of different lengths")
        }
        Node::Index { .. } => {
            plain("the sequence has no element at this place: places are counted from 0")
        }
        Node::Infix { operator, .. } => {
            with_name(sign_of(*operator), said_of_operator(fault, *operator))
        }
        Node::Prefix { operator, .. } => with_name(sign_before(*operator), said(fault)),
        Node::Call { name, .. } => remark_on_call(fault, name.as_slice()),
        _ => plain(said(fault)),
    }
}

// What is said of a call of the function with this name.
fn remark_on_call(fault: Fault, name: &[u8]) -> Remark<'_> {
    match named(name) {
        Some(_) => with_name(name, said_of_call(fault, name)),
        None => plain(said(fault)),
    }
}

// The sign of an operator before an expression.
fn sign_before(operator: Prefix) -> &'static [u8] {
    match operator {
        Prefix::Length => b"#",
        Prefix::Negate => b"-",
    }
}

// What is said of an operator's refusal.
fn said_of_operator(fault: Fault, operator: Operator) -> &'static str {
    match (fault, operator) {
        (Fault::Range(_), Operator::Read | Operator::Write) => {
            "a place on the right side is none of the sequence, whose places are counted from 0"
        }
        _ => said(fault),
    }
}

/// Functions that refuse a number for being outside of what is allowed, and what is said of each.
const OUTSIDE: &str = "\
isqrt\ta number below 0 has no root
lshift rshift\tbits are shifted by 0 to 63 places
take drop\tthe sequence has fewer elements
";

/// Functions that refuse lengths, and what is said of each.
const LENGTHS: &str = "\
dist index\ta number of elements is 0 or more
interleave\tthe first sequence has as many elements as the second, or one more
";

// What is said of the refusal of a function with this name.
fn said_of_call(fault: Fault, name: &[u8]) -> &'static str {
    match fault {
        Fault::Range(_) => said_of_word(OUTSIDE, name).unwrap_or(
            "a place is none of the sequence, whose places are counted from 0",
        ),
        Fault::Length(_) => said_of_word(LENGTHS, name).unwrap_or(
            "both sequences have to be of the same length",
        ),
        _ => said(fault),
    }
}

// What is said of a refusal.
fn said(fault: Fault) -> &'static str {
    match fault {
        Fault::Overflow(_) => {
            "the value would be no number from -9223372036854775808 to 9223372036854775807"
        }
        Fault::Division(_) => "a number can't be divided by 0",
        Fault::Range(_) => "a number is outside of what is allowed here",
        Fault::Code(_) => "the codes of characters are 0 to 255",
        Fault::Length(_) => "two sequences have to be of the same length",
        Fault::Empty(_) => "the empty sequence has no greatest and no least element",
        Fault::Permutation(_) => "two elements would go to the same place",
        Fault::Count(_) => {
            "the lengths are 0 or more, and together as many as the sequence has elements"
        }
        Fault::Stride(_) => "the step of a range is 1 or more",
        Fault::Deep(_) => {
            "this goes more than 1,000 levels deep: a function that calls itself needs an end that it reaches, as in \
            `if n == 0 then 1 else ..`"
        }
        Fault::Large(_) =>
            "a pair, a sequence or a record here would have more than 1,048,576 nodes",
        _ => "there is no value",
    }
}

// Adds the values of the parts that a function refuses, where they are short.
fn put_values(
    asked: &Asked<'_>,
    effort: &mut Effort,
    sentence: &mut Sentence,
    fault: Fault,
    part: &Exp,
) -> Result<(), AllocError> {
    if let Fault::Large(_) | Fault::Deep(_) = fault {
        return Ok(());
    }
    match &part.node {
        Node::Infix { left, right, .. } => {
            put_value(asked, effort, sentence, "; the left side is {value}", left)?;
            put_value(
                asked,
                effort,
                sentence,
                "; the right side is {value}",
                right,
            )
        }
        Node::Prefix { operand, .. } => {
            put_value(
                asked,
                effort,
                sentence,
                "; it comes before {value}",
                operand,
            )
        }
        Node::Index { sequence, index } => {
            put_value(asked, effort, sentence, "; the place is {value}", index)?;
            put_value(
                asked,
                effort,
                sentence,
                "; the sequence is {value}",
                sequence,
            )
        }
        Node::Call { argument, .. } => {
            put_value(
                asked,
                effort,
                sentence,
                "; the argument is {value}",
                argument,
            )
        }
        _ => Ok(()),
    }
}

// Adds a text about the value of a part, where that is short.
fn put_value(
    asked: &Asked<'_>,
    effort: &mut Effort,
    sentence: &mut Sentence,
    text: &str,
    part: &Exp,
) -> Result<(), AllocError> {
    match value_of(asked, effort, part)? {
        Some(value) => sentence.add(text, &[Filling("value", value.as_slice())]),
        None => Ok(()),
    }
}
