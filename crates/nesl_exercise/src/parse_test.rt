//! Tests, read from their lines.

use crate::bytes::{copy_of, is_name, number_of, split_at};
use crate::fault::{Expected, LineFault};
use crate::measure::Measure;
use crate::parse_bound::parse_bound;
use crate::row::parse_row;
use crate::test::{Check, Wish};
use std::alloc::{AllocError, Global};

// The names of faults before an evaluation, and those of the others.
const EARLY: &[u8] = b"long lexical syntax nested unknown type ambiguous retype taken transcript";

const LATE: &[u8] =
    b"overflow division range code length empty permutation count stride deep large work elements";

// The signs of the language that a submission may have to have.
const SIGNS: &[u8] = b"{ [ ( | : :: = == /= < > <= >= + ++ - <- -> * / #";

/// What a line of a block of tests says.
#[derive(Drop)]
pub enum TestLine {
    /// Nothing: it is blank, or a comment.
    Nothing,
    /// The points of the tests after it.
    Points(u64),
    Check(Check),
}

/// Reads a line of a block of tests.
pub fn parse_test(alloc: Global, line: &[u8]) -> Result<TestLine, LineFault> {
    let line = line.trim_ascii();
    if line.is_empty() || line.starts_with(b"%") {
        return Ok(TestLine::Nothing);
    }
    if let Some(rest) = line.strip_prefix(b"points ".as_slice()) {
        let points = number_of(rest.trim_ascii())?;
        return Ok(TestLine::Points(points));
    }
    let check = parse_check(alloc, line)?;
    Ok(TestLine::Check(check))
}

fn parse_check(alloc: Global, line: &[u8]) -> Result<Check, LineFault> {
    if let Some(rest) = line.strip_prefix(b"with ".as_slice()) {
        return parse_feature(alloc, Wish::With, rest.trim_ascii());
    }
    if let Some(rest) = line.strip_prefix(b"without ".as_slice()) {
        return parse_feature(alloc, Wish::Without, rest.trim_ascii());
    }
    if let Some(rest) = line.strip_prefix(b"for n in ".as_slice()) {
        return parse_for(alloc, rest);
    }
    if let Some((exp, expected)) = split_at(line, b"=>") {
        return parse_value(alloc, exp, expected);
    }
    if let Some((exp, name)) = split_at(line, b" is error ") {
        return parse_fault(alloc, exp, name);
    }
    Err(LineFault::Expected(Expected::Test))
}

fn parse_feature(alloc: Global, wish: Wish, feature: &[u8]) -> Result<Check, LineFault> {
    if !is_name(feature) && !is_among(SIGNS, feature) {
        return Err(LineFault::Expected(Expected::Feature));
    }
    let feature = copy_of(alloc, feature)?;
    Ok(Check::Feature { wish, feature })
}

fn parse_value(alloc: Global, exp: &[u8], expected: &[u8]) -> Result<Check, LineFault> {
    let (expected, ty) = split_at(expected, b":").unwrap_or((expected, &[]));
    if exp.is_empty() || expected.is_empty() {
        return Err(LineFault::Expected(Expected::Test));
    }
    let exp = copy_of(alloc, exp)?;
    let expected = typed(alloc, expected, ty)?;
    let ty = copy_of(alloc, ty)?;
    Ok(Check::Value { exp, expected, ty })
}

// The expression of a wanted value. The empty sequence has the type of its elements behind it.
fn typed(alloc: Global, expected: &[u8], ty: &[u8]) -> Result<Vec<u8>, AllocError> {
    let mut wanted = Vec::from_slice(alloc, expected)?;
    if expected == b"[]".as_slice() {
        let items = ty.strip_prefix(b"[".as_slice()).unwrap_or(&[]);
        wanted.push(b' ')?;
        wanted.extend_from_slice(items.strip_suffix(b"]".as_slice()).unwrap_or(&[]))?;
    }
    Ok(wanted)
}

fn parse_fault(alloc: Global, exp: &[u8], name: &[u8]) -> Result<Check, LineFault> {
    if exp.is_empty() {
        return Err(LineFault::Expected(Expected::Test));
    }
    if !is_among(EARLY, name) && !is_among(LATE, name) {
        return Err(LineFault::Expected(Expected::FaultName));
    }
    let exp = copy_of(alloc, exp)?;
    let name = copy_of(alloc, name)?;
    Ok(Check::Fault { exp, name })
}

// Whether a name is one of these words.
fn is_among(words: &[u8], name: &[u8]) -> bool {
    words.split(|byte| *byte == b' ').any(|word| word == name)
}

// Reads what comes after `for n in`.
fn parse_for(alloc: Global, rest: &[u8]) -> Result<Check, LineFault> {
    let Some((row, claim)) = split_at(rest, b":") else {
        return Err(LineFault::Expected(Expected::For));
    };
    let row = parse_row(alloc, row)?;
    if let Some((exp, bound)) = split_at(claim, b" work <=") {
        return parse_cost(alloc, exp, row, Measure::Work, bound);
    }
    if let Some((exp, bound)) = split_at(claim, b" depth <=") {
        return parse_cost(alloc, exp, row, Measure::Depth, bound);
    }
    Err(LineFault::Expected(Expected::For))
}

fn parse_cost(
    alloc: Global,
    exp: &[u8],
    row: Vec<u64>,
    measure: Measure,
    bound: &[u8],
) -> Result<Check, LineFault> {
    if exp.is_empty() {
        return Err(LineFault::Expected(Expected::For));
    }
    let bound = parse_bound(alloc, bound)?;
    let exp = copy_of(alloc, exp)?;
    Ok(Check::Cost {
        exp,
        row,
        measure,
        bound,
    })
}
