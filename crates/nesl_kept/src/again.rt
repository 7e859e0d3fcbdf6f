//! The lines of a file, said again to a session that begins as the head of the file says.
ghost use Rattle.std.specs.Prelude.{◌≡◌, ◌⊎◌, ◌↔◌, ◌++◌, [], ◌∷◌, List, ℕ, IfErr, IfOk, IsTrue, OnOk, length, map};
ghost use Rattle.std.specs.Io.KnownBytes.{Appends};
ghost use Rattle.nesl_session_meaning.specs.State.{State, empty_log};
ghost use Rattle.nesl_session_meaning.specs.Response.{Reply};
ghost use Rattle.nesl_session_meaning.specs.Solo.{Replays};
ghost use Rattle.nesl_keep.specs.Scroll.{kept, IsAtRest};
ghost use Rattle.nesl_line.specs.declared.keeper.Mismatch.{Mismatch};
ghost use Rattle.nesl_keeper.specs.Files.{head_text, IsNoHead};
ghost use Rattle.nesl_kept.specs.Again.{begun, ComesBack, IsBlank, SaidAgain, StaysAway, Stops, Writes};

use nesl_keep::blocks::{Layout, lay};
use nesl_keeper::head::open;
use nesl_keeper::replay::{Unstored, store};
use nesl_line::device::Sink;
use nesl_line::keeper::{KeepFault, Mismatch};
use nesl_line::tell;
use nesl_session::answer::Answer;
use nesl_session::laws::goes_on;
use nesl_session::limits::Limits;
use nesl_session::session::Session;
use std::alloc::{AllocError, Global};

/// Has a text for each line and its answer.
pub trait Teller {
    /// A text that tells of a line and of the reply to it.
    ghost tells: { Self → List ℕ → Reply → List ℕ → Type 0 };

    /// Makes the text of a line and its answer.
    fn tell(&self, alloc: Global, line: &[u8], answer: &Answer) -> Result<Vec<u8>, AllocError>
        ensures { IfOk result (λ text. tells self.now line.now answer.now text.items) };
}

/// Why no more lines are told.
#[derive(Clone, Copy, PartialEq, Eq, Debug)]
pub enum Unheard {
    /// Memory ran out.
    Memory,
    /// A write failed.
    Write,
}

/// What a file has after its last line.
#[derive(Clone, Copy, PartialEq, Eq, Debug)]
pub enum FileEnd {
    /// A closed gate, and nothing else.
    AtRest,
    /// This number of bytes that are something else, which a crash or a copy may leave.
    Torn(usize),
}

/// A session that came back, the number of bytes of its file, and how that ends.
#[derive(Drop)]
pub struct Comeback {
    pub session: Session,
    pub bytes: usize,
    pub end: FileEnd,
}

/// Why a session doesn't come back.
#[derive(Clone, Copy, PartialEq, Eq, Debug)]
pub enum Setback {
    /// Memory ran out.
    Memory,
    /// The text of a line could not be written.
    Unheard(Unheard),
    /// The file doesn't fit.
    Misfit(Mismatch),
}

/// Says the lines of a file again, to a session with these limits that begins as the head of the file says. Each must
/// be stored again. The text of each line and its answer is written before the next one is said.
pub fn say_again<T: Teller, W: Sink>(
    alloc: Global,
    limits: Limits,
    bytes: &[u8],
    teller: &T,
    writer: &mut W,
) -> Result<Comeback, Setback>
    ensures back { IfOk result
        (λ back. ComesBack limits (Writes (T.tells teller.now) (W.held writer.old) (W.held writer.new))
        bytes.now back.session) }
    ensures bytes { IfOk result (λ back. back.bytes ≡ length bytes.now) }
    ensures rest { IfOk result (λ back. (back.end ≡ FileEnd.AtRest) ↔ IsAtRest bytes.now) }
    ensures away { IfErr result
        (StaysAway limits (Writes (T.tells teller.now) (W.held writer.old) (W.held writer.new)) bytes.now) }
{
    let Ok(Layout { lines, file }) = lay(alloc, bytes) else {
        return Err(Setback::Memory);
    };
    match say_rows(alloc, limits, bytes, lines.as_slice(), teller, writer) {
        Ok(session) => Ok(Comeback {
            session,
            bytes: bytes.len(),
            end: end_of(bytes, file.as_slice()),
        }),
        Err(setback) => Err(setback),
    }
}

// Whether a file is empty, or a closed gate alone.
fn is_blank(bytes: &[u8]) -> bool
    ensures { IsTrue result ↔ IsBlank bytes.now }
{
    match bytes {
        [] | [b'.'] => true,
        _ => false,
    }
}

// Says the lines of a file again, by its rows: the head, and the lines.
fn say_rows<T: Teller, W: Sink>(
    alloc: Global,
    limits: Limits,
    bytes: &[u8],
    rows: &[Vec<u8>],
    teller: &T,
    writer: &mut W,
) -> Result<Session, Setback>
    requires rows { map (λ v. v.items) rows.now ≡ kept bytes.now }
    ensures back { IfOk result
        (ComesBack limits (Writes (T.tells teller.now) (W.held writer.old) (W.held writer.new)) bytes.now) }
    ensures away { IfErr result
        (StaysAway limits (Writes (T.tells teller.now) (W.held writer.old) (W.held writer.new)) bytes.now) }
{
    let [head, lines @ ..] = rows else {
        return begin_anew(alloc, limits, bytes);
    };
    let mut session = match begin(alloc, limits, head.as_slice()) {
        Ok(session) => session,
        Err(setback) => return Err(setback),
    };
    match say_lines(alloc, &mut session, lines, teller, writer) {
        Ok(()) => Ok(session),
        Err(setback) => Err(setback),
    }
}

// The session that has got no line, if a file without a line is blank.
fn begin_anew(alloc: Global, limits: Limits, bytes: &[u8]) -> Result<Session, Setback>
    ensures empty { IfOk result (λ s. (s ≡ empty_log limits) × IsBlank bytes.now) }
    ensures refused { IfErr result (λ e. (e ≡ Setback.Memory)
        ⊎ ((e ≡ Setback.Misfit Mismatch.Head) × (IsBlank bytes.now → ⊥))) }
{
    if !is_blank(bytes) {
        return Err(Setback::Misfit(Mismatch::Head));
    }
    match Session::new(alloc, limits) {
        Ok(empty) => Ok(empty),
        Err(_) => Err(Setback::Memory),
    }
}

// The session that a head names.
fn begin(alloc: Global, limits: Limits, head: &[u8]) -> Result<Session, Setback>
    ensures begun { IfOk result (λ s. (base : ℕ) × (cleared : ℕ) × (head_text base cleared ≡ head.now)
        × (s ≡ begun limits base cleared)) }
    ensures replayed { IfOk result (λ s. (state : State) × Replays s state) }
    ensures refused { IfErr result (λ e. (e ≡ Setback.Memory)
        ⊎ ((e ≡ Setback.Misfit Mismatch.Head) × IsNoHead limits head.now)) }
{
    match open(alloc, limits, head) {
        Ok(session) => Ok(session),
        Err(fault) => Err(setback_of(fault)),
    }
}

fn setback_of(fault: KeepFault) -> Setback
    ensures memory { fault ≡ KeepFault.Memory → result ≡ Setback.Memory }
    ensures strange { (mismatch : Mismatch) → fault ≡ KeepFault.Strange mismatch → result ≡ Setback.Misfit mismatch }
{
    match fault {
        KeepFault::Memory | KeepFault::Disk(_) | KeepFault::Full => Setback::Memory,
        KeepFault::Strange(mismatch) => Setback::Misfit(mismatch),
    }
}

// Says these lines to the session that the head of a file names.
fn say_lines<T: Teller, W: Sink>(
    alloc: Global,
    session: &mut Session,
    lines: &[Vec<u8>],
    teller: &T,
    writer: &mut W,
) -> Result<(), Setback>
    requires replayed { (state : State) × Replays session.old state }
    ensures said { OnOk result ((replies : List Reply)
        × SaidAgain (Writes (T.tells teller.now) (W.held writer.old) (W.held writer.new)) session.old
        (map (λ v. v.items) lines.now) replies session.new) }
    ensures stopped { IfErr result
        (Stops (Writes (T.tells teller.now) (W.held writer.old) (W.held writer.new)) session.old
        (map (λ v. v.items) lines.now)) }
{
    goes_on();
    for (place, line) in lines.iter().enumerate() {
        let answer = match store(session, alloc, line.as_slice()) {
            Ok(answer) => answer,
            Err(Unstored::Memory) => return Err(Setback::Memory),
            Err(Unstored::Refused) => return Err(Setback::Misfit(Mismatch::Line(place + 2))),
        };
        if let Err(unheard) = write_text(alloc, line.as_slice(), &answer, teller, writer) {
            return Err(Setback::Unheard(unheard));
        }
    }
    Ok(())
}

// Writes the text of a line and its answer.
fn write_text<T: Teller, W: Sink>(
    alloc: Global,
    line: &[u8],
    answer: &Answer,
    teller: &T,
    writer: &mut W,
) -> Result<(), Unheard>
    ensures { OnOk result ((text : List ℕ) × T.tells teller.now line.now answer.now text
        × Appends (W.held writer.old) (W.held writer.new) text) }
{
    let Ok(text) = teller.tell(alloc, line, answer) else {
        return Err(Unheard::Memory);
    };
    match write(writer, text.as_slice()) {
        Ok(()) => Ok(()),
        Err(unheard) => Err(unheard),
    }
}

/// Writes and flushes some bytes.
pub(crate) fn write<W: Sink>(writer: &mut W, bytes: &[u8]) -> Result<(), Unheard>
    ensures { OnOk result (Appends (W.held writer.old) (W.held writer.new) bytes.now) }
{
    if tell::say(writer, bytes) {
        Ok(())
    } else {
        Err(Unheard::Write)
    }
}

// Finds out how a file ends, by the file at rest that has the same lines.
fn end_of(bytes: &[u8], at_rest: &[u8]) -> FileEnd
    ensures { (result ≡ FileEnd.AtRest) ↔ (bytes.now ≡ at_rest.now) }
{
    if bytes == at_rest {
        return FileEnd::AtRest;
    }
    let lines = at_rest.len().saturating_sub(1);
    FileEnd::Torn(bytes.len().saturating_sub(lines))
}
