//! The hint on a line of a session.
ghost use Rattle.std.specs.Prelude.{◌≡◌, ◌+◌, Option, IfOk, IfSome, length, vec_len};
ghost use Rattle.std.specs.Option.{is_some};
ghost use Rattle.nesl_reply.specs.declared.fault.Fault.{Fault};
ghost use Rattle.nesl_session_meaning.specs.State.{State};
ghost use Rattle.nesl_session_meaning.specs.Solo.{Replays};
ghost use Rattle.nesl_session.specs.Asking.{AnswersWith};
ghost use Rattle.nesl_hints_tokens.specs.Within.{IsWithin};

use crate::faults::{Asked, hint_on_fault};
use nesl_hints_tokens::Hint;
use nesl_session::Fault;
use nesl_session::session::Session;
use std::alloc::{AllocError, Global};

/// What a person reads of a line, beside its reply, where the session as it is would refuse it; `None` where it would
/// not. Nothing changes, and no evaluation is charged.
///
/// Places are bytes of the whole form: of the parts that the session holds, and the line after them. Before the line
/// is said, `text` is that line. After it was answered by a fault the session holds no parts any more, so `text` is
/// then the whole form, as it was before: [`Session::pending`] and the line.
///
/// # Errors
/// Memory ran out, in the evaluation or for the sentence.
pub fn hint(alloc: Global, session: &Session, text: &[u8]) -> Result<Option<Hint>, AllocError>
    ensures only { IfOk result (λ hint. (fault : Option Fault) × AnswersWith session.now text.now fault
        × (is_some hint ≡ is_some fault)) }
    ensures inside { IfOk result (λ hint. (s : State) × Replays session.now s
        × IfSome hint (IsWithin (length s.pending + length text.now))) }
{
    let pending = session.pending();
    let fault = match session.fault_of(alloc, text)? {
        Some(fault) => fault,
        None => return Ok(None),
    };
    let form = joined(alloc, pending, text)?;
    let asked = Asked {
        alloc,
        session,
        text: form.as_slice(),
    };
    let hint = hint_on_fault(&asked, fault)?;
    Ok(Some(hint.within(form.len())))
}

/// What a person reads about a whole form that the session has just refused for this fault; `None` where the fault says
/// nothing of the form. The fault is not found once more, so the session may be another by now: the form may have used
/// up its work, or the last of its lines.
///
/// # Errors
/// Memory ran out, in an evaluation or for the sentence.
pub fn hint_below(
    alloc: Global,
    session: &Session,
    form: &[u8],
    fault: Fault,
) -> Result<Option<Hint>, AllocError>
    ensures { IfOk result (λ hint. IfSome hint (IsWithin (length form.now))) }
{
    if let Fault::Memory | Fault::User | Fault::Busy = fault {
        return Ok(None);
    }
    let asked = Asked {
        alloc,
        session,
        text: form,
    };
    let found = hint_on_fault(&asked, fault)?;
    Ok(Some(found.within(form.len())))
}

// The parts of a form, and the line after them.
fn joined(alloc: Global, pending: &[u8], text: &[u8]) -> Result<Vec<u8>, AllocError>
    ensures { IfOk result (λ form. vec_len form ≡ length pending.now + length text.now) }
{
    let mut form = Vec::from_slice(alloc, pending)?;
    form.extend_from_slice(text)?;
    Ok(form)
}
