//! One line: what is found of it before its form is looked at, and the answer.
ghost use Rattle.std.specs.Prelude.{◌≡◌, ◌+◌, ◌++◌, List, ℕ, IfOk, OnErr, IsFalse, nat_lt, if◌then◌else◌, length};
ghost use Rattle.nesl_reply.specs.declared.fault.Fault.TheVariants as faults;
ghost use Rattle.nesl_session_meaning.specs.Finding.{unread, reset};
ghost use Rattle.nesl_session_meaning.specs.Step.{Finds, Step, is_reset, is_part, is_full, longest, most_recorded};
ghost use Rattle.nesl_session_meaning.specs.Step.{recorded_by_reset, reply_of};
ghost use Rattle.nesl_session_meaning.specs.Reading.{HasReading};
ghost use Rattle.nesl_session.specs.Found.{finding_of, reading_of, CanCharge};
ghost use Rattle.nesl_session.specs.Reading.{FindsRead};
ghost use Rattle.nesl_session.specs.Settling.{CanSettle, HasRoomFor};
ghost use Rattle.nesl_session.specs.Inside.{state_of, Counts};

use crate::answer::Answer;
use crate::evaluator::Evaluator;
use crate::form::find_form;
use crate::forms::finding::Finding;
use crate::forms::{Reading, reading_of};
use crate::standing::Standing;
use nesl_reply::Fault;
use std::alloc::{AllocError, Allocator, Global};

/// The most bytes of a form, with the parts that came before.
pub const LONGEST: usize = 65_536;

/// The most lines that a session may have recorded once it is reset.
pub const MOST_RECORDED: u64 = 72_057_594_037_927_936;

/// Answers one line by a step. On `Err`, memory ran out and nothing has changed.
pub fn step<A: Allocator, E: Evaluator<A>>(
    standing: &mut Standing,
    alloc: Global,
    text: &[u8],
    by: &E,
) -> Result<Answer, AllocError>
    requires counts { Counts standing.old }
    requires sound { E.sound by.now }
    ensures step { IfOk result (λ a. Step standing.old.limits (state_of standing.old) text.now a
        (state_of standing.new)) }
    ensures err { OnErr result (state_of standing.new ≡ state_of standing.old) }
    ensures counts { Counts standing.new }
    ensures limits { standing.new.limits ≡ standing.old.limits }
{
    let finding = find(standing, alloc, text, by)?;
    let answer = match answer(standing, alloc, &finding) {
        Ok(answer) => answer,
        Err(error) => {
            finding.release();
            return Err(error);
        }
    };
    standing.settle(alloc, text, finding)?;
    Ok(answer)
}

// The answer to a line, by what was found of it.
fn answer(standing: &Standing, alloc: Global, finding: &Finding) -> Result<Answer, AllocError>
    ensures { IfOk result (λ a. a ≡ reply_of (state_of standing.now) (finding_of finding.now)) }
{
    let reply = finding.reply(standing.transcript.len() as u64);
    let text = standing.bindings.reply_text(alloc, &reply)?;
    Ok(Answer::made(text, finding.fault(), finding.is_recorded()))
}

/// What is found of a line: the first check that fails, or what the line does.
pub fn find<A: Allocator, E: Evaluator<A>>(
    standing: &Standing,
    alloc: Global,
    text: &[u8],
    by: &E,
) -> Result<Finding, AllocError>
    requires counts { Counts standing.now }
    requires sound { E.sound by.now }
    ensures found { IfOk result (λ f. Finds standing.now.limits (state_of standing.now) text.now (finding_of f)) }
    ensures settles { IfOk result (CanSettle (state_of standing.now) text.now) }
{
    if is_reset(text) {
        return Ok(find_reset(standing));
    }
    if is_full(standing, text) {
        return Ok(Finding::Unread(Fault::Transcript));
    }
    if is_long(standing, text) {
        return Ok(Finding::Unread(Fault::Long));
    }
    if is_part(text) {
        return Ok(Finding::Part);
    }
    let finding = find_read(standing, alloc, text, by)?;
    Ok(finding)
}

// A reset is refused only if too many lines were recorded.
fn find_reset(standing: &Standing) -> Finding
    requires { Counts standing.now }
    ensures found { finding_of result
        ≡ (if nat_lt most_recorded (recorded_by_reset (state_of standing.now)) then unread faults.Transcript
        else reset) }
    ensures settles { (line : List ℕ) → CanSettle (state_of standing.now) line result }
{
    let recorded = standing.cleared + standing.transcript.len() as u64 + 1;
    if MOST_RECORDED < recorded {
        Finding::Unread(Fault::Transcript)
    } else {
        Finding::Reset
    }
}

// Whether the transcript has no room for the line.
fn is_full(standing: &Standing, text: &[u8]) -> bool
    requires { Counts standing.now }
    ensures full { result ≡ is_full standing.now.limits (state_of standing.now) text.now }
    ensures fits { IsFalse result → HasRoomFor (state_of standing.now) text.now }
{
    let most_bytes = standing.limits.transcript_bytes;
    if standing.limits.transcript_lines <= standing.transcript.len() as u64 {
        return true;
    }
    match standing.bytes.checked_add(text.len() as u64) {
        Some(total) => most_bytes < total,
        None => true,
    }
}

// Whether the form has too many bytes.
fn is_long(standing: &Standing, text: &[u8]) -> bool
    ensures { result ≡ nat_lt longest (length standing.now.pending.items + length text.now) }
{
    standing.pending.len() > LONGEST || text.len() > LONGEST - standing.pending.len()
}

// What is found of a line that is read.
fn find_read<A: Allocator, E: Evaluator<A>>(
    standing: &Standing,
    alloc: Global,
    text: &[u8],
    by: &E,
) -> Result<Finding, AllocError>
    requires counts { Counts standing.now }
    requires sound { E.sound by.now }
    ensures found { IfOk result (λ f. FindsRead standing.now.limits (state_of standing.now) text.now (finding_of f)) }
    ensures charges { IfOk result (CanCharge (state_of standing.now)) }
{
    match read_form(standing, alloc, text)? {
        Reading::Stuck(at) => Ok(Finding::Refused(Fault::Lexical(at), 0)),
        Reading::NoForm => Ok(Finding::Refused(Fault::Syntax, 0)),
        Reading::TooHigh => Ok(Finding::Refused(Fault::Nested, 0)),
        Reading::Form(form) => {
            let finding = find_form(standing, alloc, form, by)?;
            Ok(finding)
        }
    }
}

// Reads the line together with the parts before it.
#[inline]
fn read_form(standing: &Standing, alloc: Global, text: &[u8]) -> Result<Reading, AllocError>
    ensures { IfOk result (λ reading. HasReading (standing.now.pending.items ++ text.now) (reading_of reading)) }
{
    if standing.pending.is_empty() {
        return reading_of(alloc, text);
    }
    let mut form = Vec::from_slice(alloc, standing.pending.as_slice())?;
    form.extend_from_slice(text)?;
    reading_of(alloc, form.as_slice())
}

// A reset is these six bytes, and no others.
fn is_reset(text: &[u8]) -> bool
    ensures { result ≡ is_reset text.now }
{
    text == b":reset".as_slice()
}

// Whether the line is part of a form that isn't complete yet.
fn is_part(text: &[u8]) -> bool
    ensures { result ≡ is_part text.now }
{
    match text.last() {
        Some(byte) => *byte == b'\\',
        None => false,
    }
}
