//! One test of a submission.
ghost use Rattle.std.specs.Prelude.{◌≡◌, ◌++◌, ℕ, List, IfOk, MatchOption, false, true};
ghost use Rattle.nesl_grade.specs.Graded.{HasType, Says};
ghost use Rattle.nesl_grade.specs.Outcomes.{IsFaultNamed, TellsAt, TellsFault, TellsRow, TellsValue};

use crate::cost::{front_before, is_within, measured, said_in};
use crate::examined::Examined;
use crate::line::{line_at, line_of};
use crate::reply::reply_after;
use nesl_exercise::bound::{BoundFault, Op, value_at};
use nesl_exercise::measure::Measure;
use nesl_exercise::outcome::Outcome;
use std::alloc::{AllocError, Global};

/// Tests whether an expression has the value of another one, which is evaluated without the submission. The type of the
/// wanted value must be written so, unless `ty` is empty.
pub fn check_value(
    alloc: Global,
    examined: &Examined,
    exp: &[u8],
    wanted: &[u8],
    ty: &[u8],
) -> Result<Outcome, AllocError>
    ensures { IfOk result (TellsValue examined.now exp.now wanted.now ty.now) }
{
    let line = line_of(alloc, exp)?;
    let got = reply_after(
        alloc,
        examined.limits,
        examined.lines.as_slice(),
        line.as_slice(),
    )?;
    let line = line_of(alloc, wanted)?;
    let want = reply_after(
        alloc,
        examined.limits,
        examined.given.as_slice(),
        line.as_slice(),
    )?;
    if say_the_same(alloc, got.as_slice(), want.as_slice(), ty)? {
        return Ok(Outcome::Passed);
    }
    Ok(Outcome::Other(got, want))
}

// Whether two replies have the same value of the same type, and the type is written so.
fn say_the_same(alloc: Global, got: &[u8], want: &[u8], ty: &[u8]) -> Result<bool, AllocError>
    ensures { IfOk result (λ same. same ≡ true → (front : List ℕ) × (work : ℕ) × (depth : ℕ) × (other_work : ℕ)
        × (other_depth : ℕ) × Says got.now front work depth × Says want.now front other_work other_depth
        × HasType front ty.now) }
{
    let Some(got) = said_in(alloc, got)? else {
        return Ok(false);
    };
    let Some(want) = said_in(alloc, want)? else {
        return Ok(false);
    };
    Ok(has_type(want.front, ty) && got.front == want.front)
}

// Whether a value with its type has this type, where there is one.
fn has_type(front: &[u8], ty: &[u8]) -> bool
    ensures { result ≡ true → HasType front.now ty.now }
{
    if ty.is_empty() {
        return true;
    }
    match front_before(front, ty) {
        Some(rest) => match front_before(rest, b" : ") {
            Some(_value) => true,
            None => false,
        },
        None => false,
    }
}

/// Tests whether an expression is refused with the fault of this name.
pub fn check_fault(
    alloc: Global,
    examined: &Examined,
    exp: &[u8],
    name: &[u8],
) -> Result<Outcome, AllocError>
    ensures { IfOk result (TellsFault examined.now exp.now name.now) }
{
    let line = line_of(alloc, exp)?;
    let got = reply_after(
        alloc,
        examined.limits,
        examined.lines.as_slice(),
        line.as_slice(),
    )?;
    if is_fault_named(got.as_slice(), name) {
        return Ok(Outcome::Passed);
    }
    let name = Vec::from_slice(alloc, name)?;
    Ok(Outcome::Other(got, name))
}

// Whether a reply is a fault of this name.
fn is_fault_named(reply: &[u8], name: &[u8]) -> bool
    ensures yes { result ≡ true → IsFaultNamed name.now reply.now }
    ensures no { result ≡ false → ¬ IsFaultNamed name.now reply.now }
{
    match rest_after(reply, b"fault ") {
        Some(rest) => match rest_after(rest, name) {
            Some(end) => match rest_after(end, b" ") {
                Some(_more) => true,
                None => false,
            },
            None => false,
        },
        None => false,
    }
}

// What comes after a front of a text.
fn rest_after<'a>(text: &'a [u8], front: &[u8]) -> Option<&'a [u8]>
    ensures { MatchOption result ((rest : List ℕ) → ¬ (text.now ≡ front.now ++ rest))
        (λ rest. text.now ≡ front.now ++ rest.now) }
{
    if text.len() < front.len() {
        return None;
    }
    let (head, rest) = text.split_at(front.len());
    if head == front { Some(rest) } else { None }
}

/// Tests whether an expression costs at most the bound, at each number of a row.
pub fn check_row(
    alloc: Global,
    examined: &Examined,
    exp: &[u8],
    row: &[u64],
    measure: Measure,
    bound: &[Op],
) -> Result<Outcome, AllocError>
    ensures { IfOk result (TellsRow examined.now exp.now measure bound.now row.now) }
{
    for n in row {
        let outcome = check_at(alloc, examined, exp, *n, measure, bound)?;
        if !outcome.is_passed() {
            return Ok(outcome);
        }
    }
    Ok(Outcome::Passed)
}

// Tests whether an expression costs at most the bound at one number.
fn check_at(
    alloc: Global,
    examined: &Examined,
    exp: &[u8],
    n: u64,
    measure: Measure,
    bound: &[Op],
) -> Result<Outcome, AllocError>
    ensures { IfOk result (TellsAt examined.now exp.now measure bound.now n) }
{
    let line = line_at(alloc, exp, n)?;
    let got = reply_after(
        alloc,
        examined.limits,
        examined.lines.as_slice(),
        line.as_slice(),
    )?;
    let Some(said) = said_in(alloc, got.as_slice())? else {
        return Ok(Outcome::Refused(n, got));
    };
    let cost = measured(measure, said.work, said.depth);
    match value_at(alloc, bound, n) {
        Ok(most) => {
            if is_within(cost, most) {
                Ok(Outcome::Passed)
            } else {
                Ok(Outcome::Over(n, cost, most))
            }
        }
        Err(BoundFault::Memory) => Err(AllocError),
        Err(fault) => Ok(Outcome::Unbounded(n, fault)),
    }
}
