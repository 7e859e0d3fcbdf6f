//! Forms that have no type, and forms that have more than one.
ghost use Rattle.std.specs.Prelude.{IfOk, IfSome};
ghost use Rattle.nesl_hints_tokens.specs.Within.{IsWithin};

use crate::clash::{Halt, Shortage, Typed};
use crate::typing::sentences::hint_of;
use crate::walk::Walk;
use nesl_eval_top_level::Payload;
use nesl_hints_tokens::{Hint, Sentence};
use nesl_lex::token::Span;
use nesl_syntax_tree::tree::Form;
use nesl_types::Context;
use std::alloc::{AllocError, Global};

/// What is said of a form that is too large to be looked at.
const TOO_LARGE: &str =
    "two types don't fit, or one would have more than 4,096 nodes: the form is too large to find where";

/// What is said of a part whose type is open.
const NOTHING_DECIDES: &str =
    "nothing decides the type of this: a function that always calls itself needs an end, as in \
    `if n == 0 then 1 else ..`, and `[] int ++ ..` decides the type of a sequence";

/// The first part of a form, by parts, whose type is not what the rest of the form wants, or the whole form where it
/// takes too many steps to find one. It is `None` where there is none. The form has `len` bytes, after which places are
/// cut off.
pub fn ill_typed(
    alloc: Global,
    context: &Context<Payload>,
    form: &Form,
    len: usize,
) -> Result<Option<Hint>, AllocError>
    ensures { IfOk result (λ hint. IfSome hint (IsWithin len)) }
{
    let mut walk = Walk::new(alloc, context, len);
    misfit_in(&mut walk, form, len)
}

// The first part of a form that doesn't fit, by a walk that has yet to begin.
fn misfit_in<'e>(
    walk: &mut Walk<'e>,
    form: &'e Form,
    len: usize,
) -> Result<Option<Hint>, AllocError>
    ensures { IfOk result (λ hint. IfSome hint (IsWithin len)) }
{
    let hint = match walk.form(form) {
        Err(Halt::Found(clash)) => hint_of(walk, clash)?,
        Err(Halt::Short(Shortage::Steps)) => {
            Sentence::of(walk.alloc, TOO_LARGE, &[])?.at(Span { start: 0, end: len })
        }
        Err(Halt::Short(Shortage::Memory)) => return Err(AllocError),
        Ok(_) => return Ok(None),
    };
    Ok(Some(hint.within(len)))
}

/// The first call in a form whose type nothing decides, or `None` where none was found. The form has `len` bytes, after
/// which places are cut off.
pub fn ambiguous(
    alloc: Global,
    context: &Context<Payload>,
    form: &Form,
    len: usize,
) -> Result<Option<Hint>, AllocError>
    ensures { IfOk result (λ hint. IfSome hint (IsWithin len)) }
{
    let mut walk = Walk::new(alloc, context, len);
    open_in(&mut walk, form, len)
}

// The first call in a form whose type nothing decides, by a walk that has yet to begin.
fn open_in<'e>(walk: &mut Walk<'e>, form: &'e Form, len: usize) -> Result<Option<Hint>, AllocError>
    ensures { IfOk result (λ hint. IfSome hint (IsWithin len)) }
{
    match walk.form(form) {
        Ok(Some(whole)) => {
            let open = first_open(walk, whole)?;
            let hint = Sentence::of(walk.alloc, NOTHING_DECIDES, &[])?.at(open.span);
            Ok(Some(hint.within(len)))
        }
        Err(Halt::Short(Shortage::Memory)) => Err(AllocError),
        _ => Ok(None),
    }
}

// The first call whose type is open, or the whole where none was found.
fn first_open(walk: &mut Walk<'_>, whole: Typed) -> Result<Typed, AllocError> {
    match walk.first_open() {
        Ok(Some(call)) => Ok(call),
        Ok(None) | Err(Shortage::Steps) => Ok(whole),
        Err(Shortage::Memory) => Err(AllocError),
    }
}
