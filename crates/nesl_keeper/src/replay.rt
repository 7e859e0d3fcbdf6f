//! A session made anew from the lines of its file, and a session compared with them.
ghost use Rattle.std.specs.Prelude.{◌≡◌, ◌++◌, [], ◌∷◌, Err, IfOk, OnOk, map};
ghost use Rattle.nesl_session_meaning.specs.State.{State};
ghost use Rattle.nesl_session_meaning.specs.Solo.{Replays, SessionAnswers};
ghost use Rattle.nesl_keeper.specs.Files.{rows_of, with_rows};
ghost use Rattle.nesl_keeper.specs.Steps.{IsUnstored};

use crate::head::{head_of, open};
use nesl_line::keeper::{KeepFault, Mark, Mismatch};
use nesl_session::Fault;
use nesl_session::answer::Answer;
use nesl_session::laws::lines_are_stored;
use nesl_session::limits::Limits;
use nesl_session::session::Session;
use std::alloc::Global;

/// The session whose file has these rows: its head, and the lines that it has stored. Each line must be stored again.
pub(crate) fn replay(alloc: Global, limits: Limits, rows: &[Vec<u8>]) -> Result<Session, KeepFault>
    ensures rows { IfOk result (λ s. rows_of s ≡ map (λ v. v.items) rows.now) }
    ensures limits { IfOk result (λ s. s.limits ≡ limits) }
    ensures replayed { IfOk result (λ s. (state : State) × Replays s state) }
{
    let [head, lines @ ..] = rows else {
        return Err(KeepFault::Strange(Mismatch::Head));
    };
    let mut session = open(alloc, limits, head.as_slice())?;
    store_all(&mut session, alloc, lines)?;
    let _ = session.lines();
    Ok(session)
}

// Says lines to a session, each of which must be stored.
#[tactic(auto, using(crate::proofs::Rows::with_more, crate::proofs::Rows::with_none))]
fn store_all(session: &mut Session, alloc: Global, lines: &[Vec<u8>]) -> Result<(), KeepFault>
    ensures { OnOk result (session.new ≡ with_rows session.old (map (λ v. v.items) lines.now)) }
{
    let mut rest = lines;
    while let [line, after @ ..] = rest {
        if let Err(fault) = store(session, alloc, line.as_slice()) {
            return Err(match fault {
                Unstored::Memory => KeepFault::Memory,
                Unstored::Refused => {
                    KeepFault::Strange(Mismatch::Line(row_of(lines.len(), rest.len())))
                }
            });
        }
        rest = after;
    }
    Ok(())
}

/// Why a line of a file isn't stored again.
#[derive(Clone, Copy, PartialEq, Eq, Debug)]
pub enum Unstored {
    /// Memory ran out.
    Memory,
    /// The session doesn't store the line.
    Refused,
}

/// Says a line to a session, which must store it.
pub fn store(session: &mut Session, alloc: Global, line: &[u8]) -> Result<Answer, Unstored>
    ensures answered { IfOk result
        (λ answer. SessionAnswers session.old (line.now ∷ []) (answer ∷ []) session.new) }
    ensures stored { OnOk result (session.new ≡ with_rows session.old (line.now ∷ [])) }
    ensures refused { result ≡ Err Unstored.Refused → IsUnstored session.old line.now session.new }
{
    lines_are_stored();
    let was = Mark::of(session);
    let answer = session.line(alloc, line);
    if answer.fault() == Some(Fault::Memory) {
        return Err(Unstored::Memory);
    }
    let is = Mark::of(session);
    if is.stored == was.stored || is.cleared != was.cleared {
        return Err(Unstored::Refused);
    }
    Ok(answer)
}

/// Fails unless the rows are those of the session's file.
pub(crate) fn compare(alloc: Global, session: &Session, rows: &[Vec<u8>]) -> Result<(), KeepFault>
    ensures { OnOk result (rows_of session.now ≡ map (λ v. v.items) rows.now) }
{
    let [head, lines @ ..] = rows else {
        return Err(KeepFault::Strange(Mismatch::Session(1)));
    };
    let Ok(own) = head_of(alloc, session) else {
        return Err(KeepFault::Memory);
    };
    if own.as_slice() != head.as_slice() {
        return Err(KeepFault::Strange(Mismatch::Session(1)));
    }
    compare_lines(session.lines(), lines)?;
    Ok(())
}

// Fails unless both are the same lines.
fn compare_lines(own: &[Vec<u8>], lines: &[Vec<u8>]) -> Result<(), KeepFault>
    ensures { OnOk result (map (λ v. v.items) own.now ≡ map (λ v. v.items) lines.now) }
{
    let mut left = own;
    let mut rest = lines;
    while let [line, after @ ..] = rest {
        let row = row_of(lines.len(), rest.len());
        let [own_line, own_after @ ..] = left else {
            return Err(KeepFault::Strange(Mismatch::Session(row)));
        };
        if own_line.as_slice() != line.as_slice() {
            return Err(KeepFault::Strange(Mismatch::Session(row)));
        }
        left = own_after;
        rest = after;
    }
    if left.is_empty() {
        Ok(())
    } else {
        Err(KeepFault::Strange(Mismatch::Session(row_of(lines.len(), 0))))
    }
}

// The current line's number in a file with this number of lines after its head, where `left` of them aren't replayed
// yet. It is counted from 1, the head included.
fn row_of(lines: usize, left: usize) -> usize {
    lines.saturating_sub(left).saturating_add(2)
}
