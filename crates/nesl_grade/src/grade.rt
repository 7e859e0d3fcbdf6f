//! A submission, graded by an exercise.
ghost use Rattle.std.specs.Prelude.{◌≡◌, ◌++◌, IfOk, map};
ghost use Rattle.nesl_forms.specs.Forms.{lines_of};
ghost use Rattle.nesl_grade.specs.declared.examined.Examined.{Examined};
ghost use Rattle.nesl_grade.specs.Grades.{IsExamined, Tells, TellsEach, forms_of, limits_for};

use crate::check::{check_fault, check_row, check_value};
use crate::examined::Examined;
use crate::kept::copy_lines;
use nesl_exercise::exercise::{Exercise, OwnLimits};
use nesl_exercise::outcome::{Graded, Outcome};
use nesl_exercise::test::{Check, Test, Wish};
use nesl_forms::lines::lines_of;
use nesl_gradebook::book::Submitted;
use nesl_lex::{LexFault, lex};
use nesl_session::limits::Limits;
use std::alloc::{AllocError, Global};

/// Grades a submission: each test in a session of its own, which gets what the exercise gives, then the forms of the
/// submission, and then the test's line.
pub fn grade(
    alloc: Global,
    limits: Limits,
    exercise: &Exercise,
    submission: &Submitted,
) -> Result<Graded, AllocError>
    ensures { IfOk result (λ graded. (s : Examined) × IsExamined limits exercise.now submission.now s
        × TellsEach s exercise.now.tests.items graded.outcomes.items) }
{
    let own = own_lines(alloc, submission)?;
    let examined = examined_by(alloc, limits, exercise, submission)?;
    let graded = check_all(alloc, &examined, own.as_slice(), exercise.tests.as_slice())?;
    Ok(graded)
}

// Makes all tests.
fn check_all(
    alloc: Global,
    examined: &Examined,
    own: &[Vec<u8>],
    tests: &[Test],
) -> Result<Graded, AllocError>
    ensures { IfOk result (λ graded. TellsEach examined.now tests.now graded.outcomes.items) }
{
    let mut outcomes = Vec::new(alloc);
    let mut points: u64 = 0;
    let mut most: u64 = 0;
    for test in tests {
        let outcome = check(alloc, examined, own, &test.check)?;
        most = most.saturating_add(test.points);
        if outcome.is_passed() {
            points = points.saturating_add(test.points);
        }
        outcomes.push(outcome)?;
    }
    Ok(Graded {
        outcomes,
        points,
        most,
    })
}

/// What a session gets before each test.
pub fn examined_by(
    alloc: Global,
    limits: Limits,
    exercise: &Exercise,
    submission: &Submitted,
) -> Result<Examined, AllocError>
    ensures { IfOk result (IsExamined limits exercise.now submission.now) }
{
    let given = lines_of(alloc, exercise.given.as_slice())?;
    let lines = joined_lines(alloc, exercise.given.as_slice(), submission)?;
    Ok(Examined {
        limits: limits_of(limits, exercise.limits),
        given,
        lines,
    })
}

// The lines of a text, and then those of a submission.
fn joined_lines(
    alloc: Global,
    given: &[u8],
    submission: &Submitted,
) -> Result<Vec<Vec<u8>>, AllocError>
    ensures { IfOk result (λ lines. map (λ line. line.items) lines.items
        ≡ lines_of given.now ++ forms_of submission.now) }
{
    let mut lines = lines_of(alloc, given)?;
    let mut own = own_lines(alloc, submission)?;
    lines.append(&mut own)?;
    Ok(lines)
}

// The lines of a submission: the forms of its text, or those of a kept session.
fn own_lines(alloc: Global, submission: &Submitted) -> Result<Vec<Vec<u8>>, AllocError>
    ensures { IfOk result (λ lines. map (λ line. line.items) lines.items ≡ forms_of submission.now) }
{
    match submission {
        Submitted::Text(text) => lines_of(alloc, text.as_slice()),
        Submitted::Kept(lines) => copy_lines(alloc, lines.as_slice()),
    }
}

// Limits, where an exercise sets none of its own.
fn limits_of(usual: Limits, own: OwnLimits) -> Limits
    ensures { result ≡ limits_for usual own }
{
    Limits {
        line_work: own.line_work.unwrap_or(usual.line_work),
        session_work: own.session_work.unwrap_or(usual.session_work),
        elements: own.elements.unwrap_or(usual.elements),
        transcript_lines: usual.transcript_lines,
        transcript_bytes: usual.transcript_bytes,
    }
}

// Makes one test.
fn check(
    alloc: Global,
    examined: &Examined,
    own: &[Vec<u8>],
    check: &Check,
) -> Result<Outcome, AllocError>
    ensures { IfOk result (Tells examined.now check.now) }
{
    match check {
        Check::Value { exp, expected, ty } => check_value(
            alloc,
            examined,
            exp.as_slice(),
            expected.as_slice(),
            ty.as_slice(),
        ),
        Check::Fault { exp, name } => check_fault(alloc, examined, exp.as_slice(), name.as_slice()),
        Check::Cost {
            exp,
            row,
            measure,
            bound,
        } => check_row(
            alloc,
            examined,
            exp.as_slice(),
            row.as_slice(),
            *measure,
            bound.as_slice(),
        ),
        Check::Feature { wish, feature } => { check_feature(alloc, own, *wish, feature.as_slice()) }
    }
}

// Tests whether a feature is in a form of the submission, or is in none.
fn check_feature(
    alloc: Global,
    own: &[Vec<u8>],
    wish: Wish,
    feature: &[u8],
) -> Result<Outcome, AllocError> {
    let is_there = is_used(alloc, own, feature)?;
    match wish {
        Wish::With => Ok(if is_there {
            Outcome::Passed
        } else {
            Outcome::Absent
        }),
        Wish::Without => Ok(if is_there {
            Outcome::Present
        } else {
            Outcome::Passed
        }),
    }
}

fn is_used(alloc: Global, own: &[Vec<u8>], feature: &[u8]) -> Result<bool, AllocError> {
    for line in own {
        if line_has(alloc, line.as_slice(), feature)? {
            return Ok(true);
        }
    }
    Ok(false)
}

// Whether a token of a line is written so, in letters of any size.
fn line_has(alloc: Global, line: &[u8], feature: &[u8]) -> Result<bool, AllocError> {
    let tokens = match lex(alloc, line) {
        Ok(tokens) => tokens,
        Err(LexFault::Lexical { .. }) => return Ok(false),
        Err(_) => return Err(AllocError),
    };
    for token in &tokens {
        let text = line.get(token.span.start..token.span.end).unwrap_or(&[]);
        if text.eq_ignore_ascii_case(feature) {
            return Ok(true);
        }
    }
    Ok(false)
}
