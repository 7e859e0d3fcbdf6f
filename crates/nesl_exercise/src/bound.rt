//! Bounds of n, and what they are at a number.
ghost use Rattle.std.specs.Prelude.{◌≡◌, ◌∷◌, [], IfOk, IsOkAnd, OnOk, reverse};
ghost use Rattle.nesl_exercise.specs.Bounds.{Computes, Does, IsOfOne, IsOfTwo};

use std::alloc::{AllocError, AllocFailed, Global};
use thiserror::Error;

/// What is computed of one number.
#[derive(Clone, Copy)]
pub enum UnaryOp {
    /// The number of binary digits, 0 for 0.
    Bits,
    /// The logarithm to the base 2, rounded down.
    Log2,
}

/// What is computed of two numbers.
#[derive(Clone, Copy)]
pub enum BinaryOp {
    Plus,
    Minus,
    Times,
    Over,
    Power,
}

/// An operation on the numbers so far.
#[derive(Clone, Copy)]
pub enum Op {
    Number(u64),
    N,
    OfOne(UnaryOp),
    OfTwo(BinaryOp),
}

/// Why a bound has no value at a number.
#[derive(Clone, Copy, Debug, Error)]
pub enum BoundFault {
    #[error("the bound has more than 128 bits")]
    TooLarge,
    #[error("the bound has a difference below 0")]
    Negative,
    #[error("the bound divides by 0")]
    Division,
    #[error("the bound has log2(0)")]
    Log,
    #[error("the bound has an operation without its numbers")]
    Incomplete,
    #[error("out of memory")]
    Memory,
}

impl From<AllocError> for BoundFault {
    fn from(_error: AllocError) -> Self {
        BoundFault::Memory
    }
}

impl<T: Drop> From<AllocFailed<T>> for BoundFault {
    fn from(_error: AllocFailed<T>) -> Self {
        BoundFault::Memory
    }
}

/// Returns what a bound is at `n`: each operation comes after the numbers that it takes. The arithmetic is exact.
pub fn value_at(alloc: Global, ops: &[Op], n: u64) -> Result<u128, BoundFault>
    ensures { IfOk result (λ v. Computes ops.now n [] (v ∷ [])) }
{
    let mut numbers = Vec::new(alloc);
    for op in ops {
        apply(&mut numbers, *op, n)?;
    }
    let value = take(&mut numbers)?;
    if numbers.is_empty() {
        Ok(value)
    } else {
        Err(BoundFault::Incomplete)
    }
}

// Takes the newest number.
fn take(numbers: &mut Vec<u128>) -> Result<u128, BoundFault>
    ensures { IfOk result (λ v. reverse numbers.old.items ≡ v ∷ reverse numbers.new.items) }
{
    match numbers.pop() {
        Some(value) => Ok(value),
        None => Err(BoundFault::Incomplete),
    }
}

// Does one operation.
fn apply(numbers: &mut Vec<u128>, op: Op, n: u64) -> Result<(), BoundFault>
    ensures { OnOk result (Does op n (reverse numbers.old.items) (reverse numbers.new.items)) }
{
    match op {
        Op::Number(number) => numbers.push(u128::from(number))?,
        Op::N => numbers.push(u128::from(n))?,
        Op::OfOne(one) => {
            let value = take(numbers)?;
            let result = of_one(one, value)?;
            numbers.push(result)?;
        }
        Op::OfTwo(two) => {
            let right = take(numbers)?;
            let left = take(numbers)?;
            let result = of_two(two, left, right)?;
            numbers.push(result)?;
        }
    }
    Ok(())
}

fn of_one(one: UnaryOp, value: u128) -> Result<u128, BoundFault>
    ensures { IfOk result (λ v. IsOfOne one value v) }
{
    match (one, value.checked_ilog2()) {
        (UnaryOp::Log2, Some(log)) => Ok(u128::from(log)),
        (UnaryOp::Log2, None) => Err(BoundFault::Log),
        (UnaryOp::Bits, Some(log)) => Ok(u128::from(log) + 1),
        (UnaryOp::Bits, None) => Ok(0),
    }
}

fn of_two(two: BinaryOp, left: u128, right: u128) -> Result<u128, BoundFault>
    ensures { IfOk result (λ v. IsOfTwo two left right v) }
{
    match two {
        BinaryOp::Plus => left.checked_add(right).ok_or(BoundFault::TooLarge),
        BinaryOp::Minus => left.checked_sub(right).ok_or(BoundFault::Negative),
        BinaryOp::Times => left.checked_mul(right).ok_or(BoundFault::TooLarge),
        BinaryOp::Over => left.checked_div(right).ok_or(BoundFault::Division),
        BinaryOp::Power => power(left, right),
    }
}

fn power(left: u128, right: u128) -> Result<u128, BoundFault>
    ensures { IfOk result (λ v. IsOfTwo BinaryOp.Power left right v) }
{
    match u32::try_from(right) {
        Ok(exponent) => left.checked_pow(exponent).ok_or(BoundFault::TooLarge),
        Err(_) => Err(BoundFault::TooLarge),
    }
}
