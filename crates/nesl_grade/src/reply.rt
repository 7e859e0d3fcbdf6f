//! Replies of sessions that get some lines and no others.
ghost use Rattle.std.specs.Prelude.{◌≡◌, ◌∷◌, [], IfOk, map};
ghost use Rattle.nesl_session_meaning.specs.Solo.{SessionAnswers};
ghost use Rattle.nesl_session_meaning.specs.Response.{is_memory};
ghost use Rattle.nesl_grade.specs.Graded.{HasSaid, IsReplyAfter};

use nesl_session::Fault;
use nesl_session::answer::Answer;
use nesl_session::laws::goes_on;
use nesl_session::limits::Limits;
use nesl_session::session::Session;
use std::alloc::{AllocError, Global};

/// Returns a session that got these lines, one after another.
pub(crate) fn say_all(
    alloc: Global,
    limits: Limits,
    lines: &[Vec<u8>],
) -> Result<Session, AllocError>
    ensures { IfOk result (HasSaid limits (map (λ line. line.items) lines.now)) }
{
    goes_on();
    let mut session = Session::new(alloc, limits)?;
    for line in lines {
        let _ = say(alloc, &mut session, line.as_slice())?;
    }
    Ok(session)
}

/// Says a line. Where memory runs out, there is no answer.
pub(crate) fn say(alloc: Global, session: &mut Session, line: &[u8]) -> Result<Answer, AllocError>
    ensures { IfOk result (λ reply. SessionAnswers session.old (line.now ∷ []) (reply ∷ []) session.new) }
{
    let answer = session.line(alloc, line);
    if is_memory(&answer) {
        return Err(AllocError);
    }
    Ok(answer)
}

fn is_memory(answer: &Answer) -> bool
    ensures { result ≡ is_memory answer.now }
{
    match answer.fault() {
        Some(Fault::Memory) => true,
        _ => false,
    }
}

/// Returns the reply to a line, of a session that got these lines before it and no others.
pub fn reply_after(
    alloc: Global,
    limits: Limits,
    lines: &[Vec<u8>],
    line: &[u8],
) -> Result<Vec<u8>, AllocError>
    ensures { IfOk result (λ reply. IsReplyAfter limits (map (λ line. line.items) lines.now) line.now reply.items) }
{
    let mut session = say_all(alloc, limits, lines)?;
    let answer = say(alloc, &mut session, line)?;
    let reply = Vec::from_slice(alloc, answer.bytes())?;
    Ok(reply)
}
