//! Copies of code that may have columns.
ghost use Rattle.std.specs.Prelude.{◌≡◌, ◌++◌, ◌∷◌, [], IfOk, OnOk};
ghost use Rattle.nesl_eval_code.specs.declared.code.Code.{Code};
ghost use Rattle.nesl_eval_ops.specs.Copies.{IsLaidAs, AreLaidAs};

use crate::leaves::copied;
use nesl_eval_code::Code;
use std::alloc::{AllocError, Global};

/// Whether code may have columns: it is made of what `copy_plain` copies. It recurs as deep as the code is high, and
/// allocates nothing.
#[cycle(telling)]
#[inline(never)]
pub(crate) fn is_plain(code: &Code) -> bool {
    match code {
        Code::Number { .. } => true,
        Code::Truth { .. } => true,
        Code::Character { .. } => true,
        Code::Local { .. } => true,
        Code::Top { .. } => true,
        Code::Pair { left, right, .. } => is_plain(left) && is_plain(right),
        Code::Apply { argument, .. } => is_plain(argument),
        Code::ApplyTwo { left, right, .. } => is_plain(left) && is_plain(right),
        Code::Call { argument, .. } => is_plain(argument),
        Code::Choice { test, yes, no, .. } => is_plain(test) && is_plain(yes) && is_plain(no),
        Code::Let { bindings, body, .. } => are_plain(bindings) && is_plain(body),
        _ => false,
    }
}

/// Whether each of the codes may have columns.
#[cycle(telling)]
#[inline(never)]
fn are_plain(codes: &[Code]) -> bool {
    for code in codes {
        if !is_plain(code) {
            return false;
        }
    }
    true
}

/// A copy of code, if it is made of constants, names, functions of one value and of two, calls, pairs, choices and
/// `let`s. It recurs as deep as the code is high. Any other code has no copy, as if there were no memory for one.
#[cycle(copying)]
#[inline(always)]
pub(crate) fn copy_plain(alloc: Global, code: &Code) -> Result<Code, AllocError>
    ensures { IfOk result (λ c. IsLaidAs c code.now) }
{
    match code {
        Code::Pair { .. } => copy_applied(alloc, code),
        Code::Apply { .. } => copy_applied(alloc, code),
        Code::ApplyTwo { .. } => copy_applied(alloc, code),
        Code::Call { .. } => copy_applied(alloc, code),
        Code::Choice { .. } => copy_choice_or_let(alloc, code),
        Code::Let { .. } => copy_choice_or_let(alloc, code),
        _ => copy_leaf(alloc, code),
    }
}

/// A copy of a pair, a function or a call if its parts have one.
#[cycle(copying)]
#[inline(never)]
fn copy_applied(alloc: Global, code: &Code) -> Result<Code, AllocError>
    ensures { IfOk result (λ c. IsLaidAs c code.now) }
{
    match code {
        Code::Pair { span, left, right } => {
            let left = copy_boxed(alloc, left)?;
            let right = copy_boxed(alloc, right)?;
            Ok(Code::Pair {
                span: *span,
                left,
                right,
            })
        }
        Code::Apply {
            span,
            function,
            argument,
        } => {
            let argument = copy_boxed(alloc, argument)?;
            Ok(Code::Apply {
                span: *span,
                function: *function,
                argument,
            })
        }
        Code::ApplyTwo {
            span,
            function,
            left,
            right,
        } => {
            let left = copy_boxed(alloc, left)?;
            let right = copy_boxed(alloc, right)?;
            Ok(Code::ApplyTwo {
                span: *span,
                function: *function,
                left,
                right,
            })
        }
        Code::Call {
            span,
            place,
            argument,
        } => {
            let argument = copy_boxed(alloc, argument)?;
            Ok(Code::Call {
                span: *span,
                place: *place,
                argument,
            })
        }
        _ => Err(AllocError),
    }
}

/// A copy of a choice or a `let` if its parts have one.
#[cycle(copying)]
#[inline(never)]
fn copy_choice_or_let(alloc: Global, code: &Code) -> Result<Code, AllocError>
    ensures { IfOk result (λ c. IsLaidAs c code.now) }
{
    match code {
        Code::Choice {
            span,
            test,
            yes,
            no,
        } => {
            let test = copy_boxed(alloc, test)?;
            let yes = copy_boxed(alloc, yes)?;
            let no = copy_boxed(alloc, no)?;
            Ok(Code::Choice {
                span: *span,
                test,
                yes,
                no,
            })
        }
        Code::Let {
            span,
            bindings,
            body,
        } => {
            let bindings = copy_all(alloc, bindings)?;
            let body = copy_boxed(alloc, body)?;
            Ok(Code::Let {
                span: *span,
                bindings,
                body,
            })
        }
        _ => Err(AllocError),
    }
}

/// A copy of code in a box. That of a local name, which most parts are, is made in its place.
#[cycle(copying)]
#[inline(never)]
fn copy_boxed(alloc: Global, code: &Code) -> Result<Box<Code>, AllocError>
    ensures { IfOk result (λ b. IsLaidAs b.value code.now) }
{
    match code {
        Code::Local { .. } => copy_local(alloc, code),
        _ => copy_into_box(alloc, code),
    }
}

/// A copy of code, put into a box.
#[cycle(copying)]
#[inline(never)]
fn copy_into_box(alloc: Global, code: &Code) -> Result<Box<Code>, AllocError>
    ensures { IfOk result (λ b. IsLaidAs b.value code.now) }
{
    let copy = copy_plain(alloc, code)?;
    let boxed = Box::new(alloc, copy)?;
    Ok(boxed)
}

/// Copies of codes, if each of them has one.
#[cycle(copying)]
fn copy_all(alloc: Global, codes: &[Code]) -> Result<Vec<Code>, AllocError>
    ensures { IfOk result (λ cs. AreLaidAs cs.items codes.now) }
{
    let mut copies = Vec::with_capacity(alloc, codes.len())?;
    for code in codes {
        add_copy(alloc, &mut copies, code)?;
    }
    Ok(copies)
}

/// One more copy.
#[cycle(copying)]
fn add_copy(alloc: Global, copies: &mut Vec<Code>, code: &Code) -> Result<(), AllocError>
    ensures { OnOk result ((c : Code) × (copies.new.items ≡ copies.old.items ++ c ∷ []) × IsLaidAs c code.now) }
{
    let copy = copy_plain(alloc, code)?;
    copies.push(copy)?;
    Ok(())
}

/// A copy of a local name, in a box.
#[inline(never)]
fn copy_local(alloc: Global, code: &Code) -> Result<Box<Code>, AllocError>
    ensures { IfOk result (λ b. IsLaidAs b.value code.now) }
{
    match code {
        Code::Local {
            span,
            up,
            index,
            steps,
        } => {
            let steps = copied(alloc, steps)?;
            let copy = Code::Local {
                span: *span,
                up: *up,
                index: *index,
                steps,
            };
            let boxed = Box::new(alloc, copy)?;
            Ok(boxed)
        }
        _ => Err(AllocError),
    }
}

/// A copy of a number, a truth value, a character, or a name that has a place.
#[inline(never)]
fn copy_leaf(alloc: Global, code: &Code) -> Result<Code, AllocError>
    ensures { IfOk result (λ c. IsLaidAs c code.now) }
{
    match code {
        Code::Number { span, value } => Ok(Code::Number {
            span: *span,
            value: *value,
        }),
        Code::Truth { span, value } => Ok(Code::Truth {
            span: *span,
            value: *value,
        }),
        Code::Character { span, value } => Ok(Code::Character {
            span: *span,
            value: *value,
        }),
        Code::Local {
            span,
            up,
            index,
            steps,
        } => {
            let steps = copied(alloc, steps)?;
            Ok(Code::Local {
                span: *span,
                up: *up,
                index: *index,
                steps,
            })
        }
        Code::Top { span, place } => Ok(Code::Top {
            span: *span,
            place: *place,
        }),
        _ => Err(AllocError),
    }
}
